ghost use Rattle.std.specs.Prelude.{◌≡◌, ◌∷◌, [], ◌++◌, ◌<◌, ◌↔◌, ℕ, length, slice_get, Some, Contains, IsSome, IfSome, IsTrue, OnOk};
ghost use Rattle.concept_rules.specs.steps.LinesOf.{IsLineOf, StandTogether};

use crate::line::Line;
use name_sets::NameSet;
use priz_base::NoMem;
use sqlite_items::Items;
use std::alloc::Global;
use std::marker::Model;

/// The names of concepts, and of each the concepts whose items it has: its ancestors, and itself behind them. A concept
/// has the number of its place in the file.
#[derive(Drop)]
pub struct Lineages<'a> {
    names: NameSet<'a>,
    lines: Items<Line>,
    /// By the number of a concept, the place of the latest line that has it.
    latest: Vec<usize>,
}

impl<'a> Model for Lineages<'a> {
    ghost use Rattle.std.specs.Prelude.{◌≤◌, length};
    ghost use Rattle.concept_rules.specs.Lineages.{Lines};

    ghost Value = { Lines };

    ghost view = { λ c. record { names = c.names; lines = c.lines } };

    ghost invariant = { λ c. length c.names ≤ length c.lines };
}

impl<'a> Lineages<'a> {
    pub(crate) fn new(alloc: Global) -> Lineages<'a>
        ensures { result ≡ record { names = []; lines = [] } }
    {
        Lineages {
            names: NameSet::new(alloc),
            lines: Items::new(alloc),
            latest: Vec::new(alloc),
        }
    }

    pub(crate) fn add(&mut self, name: &'a str, line: Line) -> Result<(), NoMem>
        requires { ¬ Contains self.old.names name.now }
        ensures { OnOk result (self.new ≡ record {
          names = self.old.names ++ name.now ∷ [];
          lines = self.old.lines ++ line ∷ [];
        }) }
    {
        note_line(&mut self.latest, line.concepts(), self.lines.len())?;
        self.lines.push(line)?;
        self.names.add(name)?;
        Ok(())
    }

    pub(crate) fn has(&self, name: &str) -> bool
        ensures { IsTrue result ↔ Contains self.now.names name.now }
    {
        self.names.has(name)
    }

    /// The number of the concept of that name, if there is one.
    pub fn number(&self, name: &str) -> Option<usize>
        ensures found { IsSome result ↔ Contains self.now.names name.now }
        ensures number { IfSome result (λ n. slice_get self.now.names n ≡ Some name.now) }
    {
        self.names.place(name)
    }

    /// The concepts whose items the concept of that number has.
    pub fn line_of(&self, concept: usize) -> &[u32]
        requires { concept < length self.now.lines }
        ensures { slice_get self.now.lines concept ≡ Some result.now }
    {
        self.lines.as_slice()[concept].concepts()
    }

    /// The line of the concept of that name.
    pub(crate) fn line(&self, name: &str) -> Option<&Line>
        ensures found { IsSome result ↔ Contains self.now.names name.now }
        ensures line { IfSome result (λ l. IsLineOf self.now name.now l.now) }
    {
        let place = self.names.place(name)?;
        Some(&self.lines.as_slice()[place])
    }

    /// Whether the latest line that has this concept has the others too.
    pub(crate) fn has_together(&self, concept: u32, others: &Line) -> bool
        ensures { IsTrue result → StandTogether self.now.lines concept others.now }
    {
        match self.latest_line(concept) {
            Some(line) => line.has(concept) && others.is_within(line),
            None => false,
        }
    }

    fn latest_line(&self, concept: u32) -> Option<&Line>
        ensures { IfSome result (λ line. Contains self.now.lines line.now) }
    {
        let place = self.latest.get(concept as usize)?;
        self.lines.as_slice().get(*place)
    }
}

// The line at this place is the latest that has these concepts, the last of which is new. It only saves time.
fn note_line(latest: &mut Vec<usize>, line: &[u32], place: usize) -> Result<(), NoMem> {
    latest.push(place)?;
    for concept in line {
        if let Some(at) = latest.get_mut(*concept as usize) {
            *at = place;
        }
    }
    Ok(())
}
