ghost use Rattle.std.specs.Prelude.{◌≡◌, ◌≢◌, ◌<◌, ◌≤◌, ◌==◌, ℕ, [], not, IfOk, OnOk, OnErr};
ghost use Rattle.std.specs.List.{filter, position_or_len};
ghost use Rattle.equation_statements.specs.steps.Places.{times, with_one_more};

use priz_base::{NoMem, Var};
use sqlite_items::Items;
use std::alloc::Global;
use std::marker::Model;

/// Variables below 1,024 in order, each once, with a table of their places.
#[derive(Drop)]
pub(crate) struct Variables {
    list: Items<Var>,
    places: Vec<Option<u32>>,
}

impl Model for Variables {
    ghost use Rattle.std.specs.Prelude.{List, ℕ};
    ghost use Rattle.equation_statements.specs.steps.Places.{HasPlaces};

    ghost Value = { List ℕ };

    ghost view = { λ s. s.list };

    ghost invariant = { λ s. HasPlaces s.list s.places.items };
}

impl Variables {
    pub(crate) fn new(alloc: Global) -> Result<Variables, NoMem>
        ensures { IfOk result (λ s. s ≡ []) }
    {
        Ok(Variables {
            list: Items::new(alloc),
            places: vec![in alloc; None; 1024]?,
        })
    }

    pub(crate) fn as_slice(&self) -> &[Var]
        ensures { result.now ≡ self.now }
    {
        self.list.as_slice()
    }

    pub(crate) fn add(&mut self, v: Var) -> Result<(), NoMem>
        requires { v < 1024 }
        ensures ok { OnOk result (self.new ≡ with_one_more self.old v) }
        ensures err { OnErr result (self.new ≡ self.old) }
    {
        let entry = v.0 as usize;
        if self.places[entry].is_none() {
            let place = self.list.len() as u32;
            self.list.push(v)?;
            self.places[entry] = Some(place);
        }
        Ok(())
    }

    /// The place of w among the variables but v.
    pub(crate) fn place_without(&self, v: Var, w: Var) -> u32
        requires v { v < 1024 }
        requires w { w < 1024 }
        requires other { w ≢ v }
        ensures { result ≡ position_or_len (λ u. u == w) (filter (λ u. not (u == v)) self.now) }
    {
        self.stand_once();
        let place = self.place(w);
        if self.place(v) < place {
            place - 1
        } else {
            place
        }
    }

    fn stand_once(&self)
        ensures { (v : ℕ) → times v self.now ≤ 1 }
    {
        let _ = &self.list;
    }

    // The place, or how many variables there are.
    fn place(&self, v: Var) -> u32
        requires { v < 1024 }
        ensures { result ≡ position_or_len (λ u. u == v) self.now }
    {
        match self.places[v.0 as usize] {
            Some(place) => place,
            None => self.list.len() as u32,
        }
    }
}
