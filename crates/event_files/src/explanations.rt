//! Explained cycles: the rows of a report, each with its evidence.

use trace_model::{Cycle, Derivation, Place};

/// The first line of a report: the number, length and bound of the question, and the numbers of
/// rows and of confirmed rows.
#[derive(Clone, Copy, Debug, PartialEq, Eq)]
pub struct ReportHead {
    pub question: u32,
    pub length: u32,
    pub bound: u32,
    pub cycles: u32,
    pub confirmed: u32,
}

/// A member of a cycle as its line states it, with its place if the cycle is confirmed.
#[derive(Drop)]
pub struct ExplainedMember {
    pub thread: u32,
    pub lock: u32,
    pub held: Vec<u32>,
    pub place: Option<Place>,
}

/// A step of a refutation as its lines state it: its derivation, and the thread of its conclusion.
/// The line of the conclusion has the place of the last entry.
#[derive(Drop)]
pub struct ExplainedStep {
    pub thread: u32,
    pub derivation: Derivation,
}

/// What a file gives as the evidence of a row.
#[derive(Drop)]
pub enum Evidence {
    /// The cycle is confirmed: the list of places that claims to reach the places of its members.
    Witness(Vec<Place>),
    /// The cycle is potential: the steps that claim to refute it. A report gives none.
    Refutation(Vec<ExplainedStep>),
}

/// A cycle with its members and its evidence. There are as many members as numbers. All have a
/// place if the cycle is confirmed, and none otherwise.
#[derive(Drop)]
pub struct Explained {
    pub cycle: Cycle,
    pub members: Vec<ExplainedMember>,
    pub evidence: Evidence,
}

/// The contents of a file of explained cycles: the first line of a report, if the file has it, and
/// the cycles.
#[derive(Drop)]
pub struct ExplainedFile {
    pub head: Option<ReportHead>,
    pub cycles: Vec<Explained>,
}
