//! Where the results of a search go.

ghost use Rattle.cycle_search.specs.Collecting.{CollectorRules, Takes};

/// Takes the results of a search one by one, so that the search need not keep them.
pub trait Collector<T> {
    /// Why it takes no more results.
    type Refused: Drop;

    /// Which results it accepts, which ones it took between two states, and when it may refuse one.
    ghost taking: { CollectorRules Self T Self.Refused };

    /// Takes the next result.
    ///
    /// The caller passes a result that it accepts.
    ///
    /// # Errors
    /// `Refused` if it does not take the result. Then the search ends.
    fn take(&mut self, item: T) -> Result<(), Self::Refused>
        requires { taking.accepts self.old item }
        ensures { Takes taking self.old item result self.new };
}
