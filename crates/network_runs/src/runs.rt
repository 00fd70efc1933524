//! A run of a network beside the model.
use crate::calls::{Call, Generator};
use crate::model::{Accepted, Model};
use codings::Coding;
use gates::Gates;
use netlists::{Refusal, Signal};
use networks::Network;
use std::alloc::{AllocError, Global};
use std::fmt;

// What the words hold before a run.
const MARK: u16 = 0xABCD;

// What a call comes to: the signal of a place call, or why it is refused.
type Outcome = Result<Option<Signal>, Refusal>;

/// How many calls were accepted, how many were refused by number, as it is printed, how often network and model differed, and
/// the most rows at any time.
#[derive(Clone, Copy, Default)]
pub struct Tally {
    accepted: u32,
    refused_9: u32,
    refused_10: u32,
    refused_11: u32,
    different: u32,
    most_rows: usize,
}

impl fmt::Display for Tally {
    fn fmt<W: fmt::Write>(&self, f: &mut fmt::Formatter<W>) -> fmt::Result {
        let (accepted, refused_9) = (self.accepted, self.refused_9);
        let (refused_10, refused_11) = (self.refused_10, self.refused_11);
        let (most_rows, different) = (self.most_rows, self.different);
        write!(f, "accepted {accepted}, refused by 9 {refused_9}, ")?;
        write!(f, "by 10 {refused_10}, by 11 {refused_11}; ")?;
        write!(f, "most rows {most_rows}; differences {different}")
    }
}

fn ask<N: Network>(net: &mut N, call: Call) -> Outcome {
    match call {
        Call::Start(inputs) => net.start(inputs).map(|_| None),
        Call::Output(signal) => net.output(signal).map(|_| None),
        Call::Place(table, fanins) => net.place(table, fanins).map(Some),
    }
}

impl Tally {
    fn count(&mut self, outcome: Outcome) {
        let counter = match outcome.map_err(Refusal::number) {
            Ok(_) => &mut self.accepted,
            Err(9) => &mut self.refused_9,
            Err(10) => &mut self.refused_10,
            Err(11) => &mut self.refused_11,
            // No refusal has another number.
            Err(_) => &mut self.different,
        };
        *counter = counter.wrapping_add(1);
    }

    fn compare<T: PartialEq>(&mut self, seen: &T, due: &T) {
        self.different = self.different.wrapping_add(u32::from(*seen != *due));
    }

    // Compares every count, row and output.
    fn compare_all<N: Network>(&mut self, net: &N, model: &Model) {
        let (rows, outputs) = (model.rows.len(), model.outputs.len());
        self.compare(&net.input_count(), &model.inputs);
        self.compare(&net.row_count(), &rows);
        self.compare(&net.output_count(), &outputs);
        for (k, row) in model.rows.iter().enumerate() {
            self.compare(&net.row(k), &Ok(*row));
        }
        for (k, signal) in model.outputs.iter().enumerate() {
            self.compare(&net.output_signal(k), &Ok(*signal));
        }
        self.compare(&net.row(rows), &Err(Refusal::NoSuchRow));
        self.compare(&net.output_signal(outputs), &Err(Refusal::NoSuchOutput));
    }

    // Compares the words that a run gives back: as many as it was given, and those past the most rows as they were.
    fn compare_words(&mut self, words: &[u16], given: usize, width: usize) {
        self.compare(&words.len(), &given);
        let used = self.most_rows.saturating_mul(width);
        for word in words.iter().skip(used) {
            self.compare(word, &MARK);
        }
    }
}

// Makes 3000 calls on a network just opened, and compares as it goes.
fn drive<N: Network>(heap: Global, net: &mut N) -> Result<Tally, AllocError> {
    let mut generator = Generator::new();
    let mut tally = Tally::default();
    let mut model = Model::new(heap, net.place_count(), N::owned());
    for turn in 0..3000 {
        let call = if turn == 0 {
            Call::Start(8)
        } else {
            generator.call()
        };
        let outcome = ask(net, call);
        tally.count(outcome);
        let due = model.judge(call);
        tally.compare(&outcome, &due.map(|accepted| accepted.signal));
        if let Ok(
            Accepted {
                change: Some(change),
                ..
            },
        ) = due
        {
            model.make(change)?;
        }
        tally.most_rows = tally.most_rows.max(net.row_count());
        if turn % 50 == 49 {
            tally.compare_all(&*net, &model);
        }
    }
    Ok(tally)
}

/// The words of a network that is to be driven.
pub(crate) fn marked(heap: Global, words: usize) -> Result<Vec<u16>, AllocError> {
    vec![in heap; MARK; words]
}

/// Drives a network just opened over so many marked words, of which a place takes `width`.
pub(crate) fn run_kind<C: Coding<W>, const W: usize>(
    heap: Global,
    words: usize,
    width: usize,
    mut net: Gates<C, W>,
) -> Result<Tally, AllocError> {
    let mut tally = drive(heap, &mut net)?;
    tally.compare_words(&net.into_words(), words, width);
    Ok(tally)
}
