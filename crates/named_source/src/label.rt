//! Names that may be labels of a source.

ghost use Rattle.std.specs.Prelude.{◌≡◌, ◌||◌};
ghost use Rattle.named_source.specs.NamedSources.{is_counter, is_kept, is_label, is_register};

use yayul::is_name;

/// Whether a name may be a label of the source.
#[tactic(auto, unfolding(crate::specs::NamedSources::is_label))]
pub(crate) fn is_label(name: &[u8]) -> bool
    ensures { result ≡ is_label name.now }
{
    is_name(name) && !is_own(name)
}

/// Whether a name is that of a register, or of a cell with a use of its own.
fn is_own(name: &[u8]) -> bool
    ensures { result ≡ (is_register name.now || (is_kept name.now || is_counter name.now)) }
{
    is_register(name) || is_kept(name) || is_counter(name)
}

/// Whether a name is that of a cell that keeps a register, or edits.
#[tactic(auto, unfolding(crate::specs::NamedSources::is_kept))]
fn is_kept(name: &[u8]) -> bool
    ensures { result ≡ is_kept name.now }
{
    name == "ARUPT".as_bytes()
        || name == "LRUPT".as_bytes()
        || name == "QRUPT".as_bytes()
        || name == "ZRUPT".as_bytes()
        || name == "BBRUPT".as_bytes()
        || name == "BRUPT".as_bytes()
        || name == "CYR".as_bytes()
        || name == "SR".as_bytes()
        || name == "CYL".as_bytes()
        || name == "EDOP".as_bytes()
}

/// Whether a name is that of a counter.
#[tactic(auto, unfolding(crate::specs::NamedSources::is_counter))]
fn is_counter(name: &[u8]) -> bool
    ensures { result ≡ is_counter name.now }
{
    name == "TIME2".as_bytes()
        || name == "TIME1".as_bytes()
        || name == "TIME3".as_bytes()
        || name == "TIME4".as_bytes()
        || name == "TIME5".as_bytes()
        || name == "TIME6".as_bytes()
        || name == "CDUX".as_bytes()
        || name == "CDUY".as_bytes()
        || name == "CDUZ".as_bytes()
        || name == "OPTY".as_bytes()
        || name == "OPTX".as_bytes()
        || name == "PIPAX".as_bytes()
        || name == "PIPAY".as_bytes()
        || name == "PIPAZ".as_bytes()
        || name == "INLINK".as_bytes()
}

/// Whether a name is the letters of a register.
fn is_register(name: &[u8]) -> bool
    ensures { result ≡ is_register name.now }
{
    name == "A".as_bytes()
        || name == "L".as_bytes()
        || name == "Q".as_bytes()
        || name == "EB".as_bytes()
        || name == "FB".as_bytes()
        || name == "Z".as_bytes()
        || name == "BB".as_bytes()
}
