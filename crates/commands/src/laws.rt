//! Laws of the commands: each function has a theorem as its contract, and no body.

ghost use Rattle.commands.specs.Check.{ValidFilesAreTrue};

/// States that a file of explained cycles whose lines are all valid states only true rows of the
/// trace: the numbers of each row are a cycle, its lines state the dependencies of its members, and
/// the cycle is confirmed if the row has a witness, else it is not confirmed. Part of the public
/// API; not called by the program.
pub fn valid_files_are_true()
    ensures { ValidFilesAreTrue }
{}
