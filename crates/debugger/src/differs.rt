//! `differs`: the words that are others than after a step.

ghost use Rattle.std.specs.Prelude.{◌≡◌, ◌+◌, ◌*◌, ◌<◌, ◌≤◌, ◌++◌, ◌==◌, [], not, true, codes, length, if◌then◌else◌};
ghost use Rattle.std.specs.List.{flat_map};
ghost use Rattle.arrayvec.specs.ArrayVec.{array_vec_len};
ghost use Rattle.words.specs.Devices.{Writes, failures_after};
ghost use Rattle.words.specs.Numerals.{octal_text};
ghost use Rattle.space.specs.declared.place.Linear.TheVariants.{Erasable};
ghost use Rattle.yayul.specs.Listing.{place_text};
ghost use Rattle.space.specs.Cells.{changed_places, get};
ghost use Rattle.cpu.specs.Run.{run};
ghost use Rattle.replay.specs.View.{HasShown};
ghost use Rattle.debugger.specs.AllRegisters.{word_in};
ghost use Rattle.debugger.specs.Channels.{channel_line, channel_word};
ghost use Rattle.debugger.specs.Differs.{HasCompared, channels_changed, differences_text, differs_text, erasable_line};
ghost use Rattle.debugger.specs.Replies.{line};
ghost use Rattle.debugger.specs.Desks.{Looks};

use crate::channels::{CHANNELS, channel_line, channel_word};
use crate::desk::Desk;
use crate::texts::{Text, number_line, text_line};
use arrayvec::ArrayVec;
use replay::Keeper;
use space::place::Linear;
use space::store::Store;
use space::{Chan, Eras};
use trace::place_text;
use words::{Write, WriteFailed, push_all, push_octal, write_all};

/// How many erasable places there are.
const ERASABLE_PLACES: u16 = 2_048;

/// The most bytes of the lines of words: 18 for each of 2,048 places, 15 for each of 512 channels, and 128 for how many
/// they are.
const DIFFERENCES_TEXT: usize = 44_672;

/// The lines of words that differ.
type DifferencesText = ArrayVec<u8, DIFFERENCES_TEXT>;

impl<'a, K: Keeper> Desk<'a, K> {
    /// `differs`: the words that are others at the position than after a step.
    ///
    /// The words of the position are copied for this while; then the step is shown beside them.
    pub(crate) fn differs<W: Write>(&mut self, step: u64, out: &mut W) -> Result<(), WriteFailed>
        ensures writes { W.told ≡ true → Writes (W.written out.old) (W.written out.new)
            (differs_text self.old.session.now.scenario self.old.session.now.n self.old.position step) result }
        ensures looked { Looks (2 * self.old.session.now.n) self.old self.new }

        // No more steps are executed than by one look at the position, which is none where it is shown, and one at the
        // step.
        ensures compared { step ≤ self.old.session.now.n → HasCompared self.old.session.now self.old.position step
            self.new.session.now }
        ensures late { self.old.session.now.n < step → self.new.session.now ≡ self.old.session.now }
        ensures failures { W.failures out.new ≡ failures_after (W.failures out.old) result }
    {
        if step > self.session.steps() {
            return write_all(out, text_line(b"E41 NOT YET").as_slice());
        }
        let mut here = Store::zero();
        self.copy_words(&mut here);
        match self.session.show(step) {
            Ok(machine) => write_all(out, differences_text(machine.store(), &here).as_slice()),
            Err(_) => unreachable!(),
        }
    }

    /// Copies the words at the position.
    fn copy_words(&mut self, words: &mut Store)
        ensures words { words.new ≡ (run self.old.session.now.scenario self.old.position).cells }
        ensures looked { Looks self.old.session.now.n self.old self.new }
        ensures shown { HasShown self.old.session.now self.old.position self.new.session.now }
    {
        match self.session.show(self.position) {
            Ok(machine) => machine.store().copy_to(words),
            Err(_) => unreachable!(),
        }
    }
}

/// The lines of the words that differ, as the second store has them, and how many there are.
#[tactic(auto, unfolding(crate::specs::Differs::differences_text))]
fn differences_text(old: &Store, new: &Store) -> DifferencesText
    ensures { result.items ≡ differences_text old.now new.now }
{
    let mut text = ArrayVec::new();
    let places = push_places(&mut text, old, new);
    let channels = push_channels(&mut text, old, new);
    push_all(
        &mut text,
        number_line(b"COUNT ", places + channels).as_slice(),
    );
    text
}

/// Appends the lines of the erasable places that read differently, and answers how many they are.
fn push_places(text: &mut DifferencesText, old: &Store, new: &Store) -> u64
    requires { array_vec_len text.old ≡ 0 }
    ensures items { text.new.items ≡ text.old.items
        ++ flat_map (erasable_line new.now) (changed_places old.now new.now) }
    ensures count { result ≡ length (changed_places old.now new.now) }
    ensures few { result ≤ 2_048 }
    ensures short { array_vec_len text.new ≤ 36_864 }
{
    let mut count = 0;
    for number in 0..ERASABLE_PLACES {
        count += push_place(text, old, new, Eras::of_low_bits(number));
    }
    count
}

/// Appends the lines of the channels whose words differ, and answers how many they are.
fn push_channels(text: &mut DifferencesText, old: &Store, new: &Store) -> u64
    requires { array_vec_len text.old ≤ 36_864 }
    ensures items { text.new.items ≡ text.old.items
        ++ flat_map (channel_line new.now) (channels_changed (channel_word old.now) (channel_word new.now)) }
    ensures count { result ≡ length (channels_changed (channel_word old.now) (channel_word new.now)) }
    ensures few { result ≤ 512 }
    ensures short { array_vec_len text.new ≤ 44_544 }
{
    let mut count = 0;
    for number in 0..CHANNELS {
        count += push_channel(text, old, new, Chan::of_low_bits(number));
    }
    count
}

/// Appends the line of an erasable place that reads differently, and answers how many lines that are.
fn push_place(text: &mut DifferencesText, old: &Store, new: &Store, place: Eras) -> u64
    requires { array_vec_len text.old ≤ 36_846 }
    ensures items { text.new.items ≡ text.old.items
        ++ (if not (get old.now place == get new.now place) then erasable_line new.now place else []) }
    ensures count { result ≡ (if not (get old.now place == get new.now place) then 1 else 0) }
    ensures short { array_vec_len text.new ≤ array_vec_len text.old + 18 }
{
    if old.read(place) == new.read(place) {
        return 0;
    }
    push_all(text, erasable_line(new, place).as_slice());
    1
}

/// Appends the line of a channel whose word differs, and answers how many lines that are.
fn push_channel(text: &mut DifferencesText, old: &Store, new: &Store, channel: Chan) -> u64
    requires { array_vec_len text.old ≤ 44_529 }
    ensures items { text.new.items ≡ text.old.items
        ++ (if not (channel_word old.now channel == channel_word new.now channel) then channel_line new.now channel else
        []) }
    ensures count { result ≡ (if not (channel_word old.now channel == channel_word new.now channel) then 1 else 0) }
    ensures short { array_vec_len text.new ≤ array_vec_len text.old + 15 }
{
    if channel_word(old, channel) == channel_word(new, channel) {
        return 0;
    }
    push_all(text, channel_line(new, channel).as_slice());
    1
}

/// The line of an erasable place.
fn erasable_line(store: &Store, place: Eras) -> Text
    ensures items { result.items ≡ erasable_line store.now place }
    ensures short { array_vec_len result ≤ 18 }
{
    if place == Eras::A {
        register_line(b"A ", 6, store.read(place).to_u16())
    } else if place == Eras::L {
        register_line(b"L ", 5, store.read(place).correct().to_u16())
    } else if place == Eras::Q {
        register_line(b"Q ", 6, store.read(place).to_u16())
    } else if place == Eras::EB {
        register_line(b"EB ", 1, store.banks().eb)
    } else if place == Eras::FB {
        register_line(b"FB ", 2, store.banks().fb)
    } else if place == Eras::Z {
        register_line(b"Z ", 4, store.read(place).correct().to_u16())
    } else if place == Eras::BB {
        register_line(b"BB ", 5, store.read(place).correct().to_u16())
    } else {
        memory_line(store, place)
    }
}

/// The line of a register.
fn register_line(name: &[u8], digits: usize, number: u16) -> Text
    requires name { length name.now ≤ 3 }
    requires digits { digits ≤ 6 }
    ensures items { result.items ≡ line (name.now ++ octal_text digits number) }
    ensures short { array_vec_len result ≤ 10 }
{
    let mut text = ArrayVec::new();
    push_all(&mut text, name);
    push_octal(&mut text, digits, number);
    push_all(&mut text, b"\n");
    text
}

/// The line of a place that is no register.
fn memory_line(store: &Store, place: Eras) -> Text
    ensures items { result.items ≡ line (codes "MEM " ++ place_text (Erasable place) ++ codes " "
        ++ word_in store.now place) }
    ensures len { array_vec_len result ≡ 18 }
{
    let mut text = ArrayVec::new();
    push_all(&mut text, b"MEM ");
    push_all(&mut text, place_text(Linear::Erasable(place)).as_slice());
    push_all(&mut text, b" ");
    push_octal(&mut text, 5, store.read(place).correct().to_u16());
    push_all(&mut text, b"\n");
    text
}
