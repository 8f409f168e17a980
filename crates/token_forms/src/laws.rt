//! Laws of forms.
ghost use Rattle.std.specs.Prelude.{◌↔◌, ◌++◌, List};
ghost use Rattle.token_forms.specs.Symbols.{Symbol};
ghost use Rattle.token_forms.specs.Forms.{Form, AreForm, BeginForm};

/// Symbols begin a form, case by case, exactly where some symbols of the form go on with them.
pub fn symbols_begin_forms()
    ensures { (f : Form) (ts : List Symbol) → BeginForm f ts ↔ ((more : List Symbol) × AreForm f (ts ++ more)) }
{}
