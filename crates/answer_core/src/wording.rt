ghost use Rattle.std.specs.Prelude.{◌≡◌};
ghost use Rattle.answer_core.specs.Wordings.{separate_text, fault_text};

use body_lang::RunFault;

pub(crate) fn separate_text(separate: bool) -> &'static [u8]
    ensures { result.now ≡ separate_text separate }
{
    if separate {
        b"program separate\n"
    } else {
        b"program mixed\n"
    }
}

pub(crate) fn fault_text(kind: RunFault) -> &'static [u8]
    ensures { result.now ≡ fault_text kind }
{
    match kind {
        RunFault::ZeroDivisor => b"zero divisor",
        RunFault::Width => b"width",
        RunFault::NotWhole => b"not whole",
        RunFault::NegativeBound => b"negative bound",
        RunFault::Turns => b"turns",
    }
}
