//! What a search notes beside the places of its tree, so that it goes on well. Nothing is proved of it.

use arc_num::Memory;
use column_master::{BasicName, Master};
use search_tree::SplitAt;
use std::alloc::Global;

/// So many names are kept at most; where there are more, a box starts from the first basis.
const MOST_NAMES: usize = 4_000_000;

/// How the parts of a box are to be made and priced.
#[derive(Debug, Drop)]
pub struct Note {
    /// The names of the basis that is best for the box.
    pub names: Vec<BasicName>,
    /// Where the box is best split.
    pub split: Option<SplitAt>,
}

impl Note {
    /// A note that tells nothing.
    pub fn nothing(alloc: Global) -> Note {
        Note {
            names: Vec::new(alloc),
            split: None,
        }
    }
}

/// A note beside a place, and how many boxes were noted before.
#[derive(Debug, Drop)]
struct Noted {
    note: Note,
    born: u32,
}

/// The notes beside all places of a tree, in the order of the places.
#[derive(Debug, Drop)]
pub struct Notes {
    noted: Vec<Noted>,
    /// How many boxes were looked at.
    looked: u32,
    /// How many names are kept.
    kept: usize,
}

impl Notes {
    /// The note of a tree of one place.
    pub(crate) fn new(alloc: Global, note: Note) -> Result<Notes, Memory> {
        let kept = note.names.len();
        Ok(Notes {
            noted: vec![in alloc; Noted { note, born: 0 }]?,
            looked: 1,
            kept,
        })
    }

    /// Counts a box that is looked at, and answers how many were before.
    pub(crate) fn next_turn(&mut self) -> u32 {
        let turn = self.looked;
        self.looked = turn.saturating_add(1);
        turn
    }

    /// The names beside a place, once more.
    pub(crate) fn names_at(&self, alloc: Global, index: usize) -> Result<Vec<BasicName>, Memory> {
        match self.noted.get(index) {
            Some(noted) => Ok(Vec::from_slice(alloc, noted.note.names.as_slice())?),
            None => Ok(Vec::new(alloc)),
        }
    }

    /// Where the box of a place is best split.
    pub(crate) fn split_at(&self, index: usize) -> Option<SplitAt> {
        self.noted.get(index)?.note.split
    }

    /// Whether one place was made after another.
    pub(crate) fn is_newer(&self, index: usize, other: usize) -> bool {
        match (self.noted.get(index), self.noted.get(other)) {
            (Some(noted), Some(other)) => noted.born > other.born,
            _ => false,
        }
    }

    /// Notes what stands beside the parts of a place that is split, the high part as the newest.
    pub(crate) fn split(
        &mut self,
        alloc: Global,
        index: usize,
        low: Note,
        high: Note,
    ) -> Result<(), Memory> {
        if index >= self.noted.len() {
            return Ok(());
        }
        self.forget(alloc, index);
        let low = self.noted(alloc, low, self.looked);
        let high = self.noted(alloc, high, self.looked.saturating_add(1));
        put(&mut self.noted, index.saturating_add(1), high)?;
        put(&mut self.noted, index.saturating_add(1), low)
    }

    /// Drops the names beside a place.
    fn forget(&mut self, alloc: Global, index: usize) {
        if let Some(noted) = self.noted.get_mut(index) {
            self.kept = self.kept.saturating_sub(noted.note.names.len());
            noted.note.names = Vec::new(alloc);
        }
    }

    /// A note that is born now, with its names where there is room for them.
    fn noted(&mut self, alloc: Global, note: Note, born: u32) -> Noted {
        let kept = self.kept.saturating_add(note.names.len());
        if kept <= MOST_NAMES {
            self.kept = kept;
            return Noted { note, born };
        }
        let split = note.split;
        let names = Vec::new(alloc);
        Noted {
            note: Note { names, split },
            born,
        }
    }
}

/// Puts a note to the others, if it stands behind one of them.
fn put(notes: &mut Vec<Noted>, index: usize, noted: Noted) -> Result<(), Memory> {
    if index <= notes.len() {
        notes.insert(index, noted)?;
    }
    Ok(())
}

/// The names of the basis of the box that was priced last.
pub(crate) fn names_of(alloc: Global, master: &Master) -> Result<Vec<BasicName>, Memory> {
    let mut names = Vec::new(alloc);
    if let Some(relaxation) = master.relaxation() {
        relaxation.push_names(&mut names)?;
    }
    Ok(names)
}
