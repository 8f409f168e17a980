ghost use Rattle.std.specs.Prelude.{◌≡◌, ◌<◌, ◌≤◌, ◌-◌, ◌^◌, ◌∷◌, ◌++◌, ◌↔◌, [], ℕ, List, IfOk, OnOk, IsTrue};
ghost use Rattle.std.specs.List.{position_or_len};
ghost use Rattle.std.specs.Str.{bytes_eq};
ghost use Rattle.concept_unfold.specs.Paths.{first_name, input_names};
ghost use Rattle.concept_unfold.specs.steps.InputPlaces.{ArePlaces};

use priz_base::NoMem;
use sqlite_items::Items;
use statement_set::Names;
use std::alloc::Global;
use std::marker::Model;
use utopist_syntax::{Part, Path};

/// The names of the plain inputs of a relation, each once, and the first place of each among the inputs.
#[derive(Drop)]
pub(crate) struct Inputs {
    names: Names,
    firsts: Items<usize>,
    count: usize,
}

impl Model for Inputs {
    ghost use Rattle.std.specs.Prelude.{All, ◌≤◌, length};
    ghost use Rattle.concept_unfold.specs.steps.InputPlaces.{Places};

    ghost Value = { Places };

    ghost view = { λ i. record { names = i.names; firsts = i.firsts; count = i.count } };

    ghost invariant = { λ i. (length i.names ≤ length i.firsts) × All (λ p. p ≤ i.count) i.firsts };
}

impl Inputs {
    pub(crate) fn of(alloc: Global, parts: &[Part]) -> Result<Inputs, NoMem>
        ensures { IfOk result (λ i. ArePlaces i (input_names parts.now)) }
    {
        let mut inputs = Inputs::new(alloc);
        for part in parts {
            inputs.add_part(part)?;
        }
        Ok(inputs)
    }

    fn new(alloc: Global) -> Inputs
        ensures { ArePlaces result [] }
    {
        Inputs {
            names: Names::new(alloc),
            firsts: Items::new(alloc),
            count: 0,
        }
    }

    fn add_part(&mut self, part: &Part) -> Result<(), NoMem>
        requires { self.old.count < 2 ^ 64 - 1 }
        ensures { OnOk result ((names : List (List ℕ)) → ArePlaces self.old names
            → ArePlaces self.new (names ++ input_names (part.now ∷ []))) }
    {
        if let Part::Input(path) = part {
            self.add(first_text(path))?;
        }
        Ok(())
    }

    fn add(&mut self, name: &str) -> Result<(), NoMem>
        requires { self.old.count < 2 ^ 64 - 1 }
        ensures { OnOk result ((names : List (List ℕ)) → ArePlaces self.old names
            → ArePlaces self.new (names ++ name.now ∷ [])) }
    {
        if !self.names.has(name) {
            self.firsts.push(self.count)?;
            self.names.add(name)?;
        }
        self.count += 1;
        Ok(())
    }

    /// The place of the first input of this name, or the number of inputs where there is none.
    pub(crate) fn place(&self, name: &str) -> usize
        ensures place { (names : List (List ℕ)) → ArePlaces self.now names
            → result ≡ position_or_len (bytes_eq name.now) names }
        ensures below { result ≤ self.now.count }
    {
        match self.names.place(name) {
            Some(i) => self.firsts.as_slice()[i],
            None => self.count,
        }
    }
}

/// The first name of a path.
pub(crate) fn first_text<'a>(path: &Path<'a>) -> &'a str
    ensures { result.now ≡ (first_name path.now).text }
{
    match path.parts.as_slice() {
        [name, ..] => name.text(),
        [] => "",
    }
}
