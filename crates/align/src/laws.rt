//! The law of renamings. It is the contract of a call that does nothing.

ghost use Rattle.std.specs.Prelude.{◌≡◌, true};
ghost use Rattle.align.specs.Renamings.{is_renaming, IsOneToOne};

use crate::entries::Entry;

/// Where addresses are renamed, in the words of a bank none stands for two.
pub fn renamed_one_to_one(names: &[Entry], back: &[Entry])
    ensures { is_renaming names.now back.now ≡ true → IsOneToOne names.now }
{
    let _names = names;
    let _back = back;
}
