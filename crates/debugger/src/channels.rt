//! `chans`: the channels that hold something.

ghost use Rattle.std.specs.Prelude.{◌≡◌, ◌+◌, ◌<◌, ◌≤◌, ◌++◌, ◌==◌, [], length, not, if◌then◌else◌};
ghost use Rattle.std.specs.List.{flat_map};
ghost use Rattle.arrayvec.specs.ArrayVec.{array_vec_len};
ghost use Rattle.cpu.specs.Run.{run};
ghost use Rattle.replay.specs.View.{HasShown};
ghost use Rattle.debugger.specs.Channels.{channel_line, channel_word, channels_set, channels_text};
ghost use Rattle.debugger.specs.Desks.{Looks};

use crate::desk::Desk;
use crate::texts::{Text, number_line};
use arrayvec::ArrayVec;
use replay::Keeper;
use space::Chan;
use space::store::Store;
use words::{Word, push_all, push_octal};

/// How many channels there are.
pub(crate) const CHANNELS: u16 = 512;

/// The most bytes of the lines of channels: 15 for each of 512, and 128 for how many they are.
const CHANNELS_TEXT: usize = 7_808;

/// The lines of channels.
pub(crate) type ChannelsText = ArrayVec<u8, CHANNELS_TEXT>;

impl<'a, K: Keeper> Desk<'a, K> {
    /// `chans`: the channels whose words at the position are not zero.
    pub(crate) fn channels(&mut self) -> ChannelsText
        ensures text { result.items ≡ channels_text (run self.old.session.now.scenario self.old.position).cells }
        ensures looked { Looks self.old.session.now.n self.old self.new }
        ensures shown { HasShown self.old.session.now self.old.position self.new.session.now }
    {
        match self.session.show(self.position) {
            Ok(machine) => channels_text(machine.store()),
            Err(_) => unreachable!(),
        }
    }
}

/// The lines of the channels whose words are not zero, and how many there are.
#[tactic(auto, unfolding(crate::specs::Channels::channels_text))]
fn channels_text(store: &Store) -> ChannelsText
    ensures { result.items ≡ channels_text store.now }
{
    let mut text = ArrayVec::new();
    let count = push_channels(&mut text, store);
    push_all(&mut text, number_line(b"COUNT ", count).as_slice());
    text
}

/// Appends the lines of the channels whose words are not zero, and answers how many they are.
fn push_channels(text: &mut ChannelsText, store: &Store) -> u64
    requires { array_vec_len text.old ≡ 0 }
    ensures items { text.new.items ≡ text.old.items
        ++ flat_map (channel_line store.now) (channels_set (channel_word store.now)) }
    ensures count { result ≡ length (channels_set (channel_word store.now)) }
    ensures short { array_vec_len text.new ≤ 7_680 }
{
    let mut count = 0;
    for number in 0..CHANNELS {
        count += push_if_set(text, store, Chan::of_low_bits(number));
    }
    count
}

/// Appends the line of a channel whose word is not zero, and answers how many lines that are.
fn push_if_set(text: &mut ChannelsText, store: &Store, channel: Chan) -> u64
    requires { array_vec_len text.old ≤ 7_665 }
    ensures items { text.new.items ≡ text.old.items
        ++ (if not (channel_word store.now channel == 0) then channel_line store.now channel else []) }
    ensures count { result ≡ (if not (channel_word store.now channel == 0) then 1 else 0) }
    ensures short { array_vec_len text.new ≤ array_vec_len text.old + 15 }
{
    if channel_word(store, channel).to_u16() == 0 {
        return 0;
    }
    push_all(text, channel_line(store, channel).as_slice());
    1
}

/// The word on a channel.
pub(crate) fn channel_word(store: &Store, channel: Chan) -> Word
    ensures { result ≡ channel_word store.now channel }
{
    store.channel(channel).correct()
}

/// The line of a channel and its word.
pub(crate) fn channel_line(store: &Store, channel: Chan) -> Text
    ensures items { result.items ≡ channel_line store.now channel }
    ensures len { array_vec_len result ≡ 15 }
{
    let mut line = ArrayVec::new();
    push_all(&mut line, b"CHAN ");
    push_octal(&mut line, 3, channel.number());
    push_all(&mut line, b" ");
    push_octal(&mut line, 5, channel_word(store, channel).to_u16());
    push_all(&mut line, b"\n");
    line
}
