//! `calls`: the calls of routines that are in progress, the innermost first.

ghost use Rattle.std.specs.Prelude.{◌≡◌, ◌+◌, ◌*◌, ◌≤◌, ◌++◌, length};
ghost use Rattle.arrayvec.specs.ArrayVec.{array_vec_len};
ghost use Rattle.cpu.specs.Run.{run};
ghost use Rattle.debugger.specs.Routines.{routines, routines_inside};
ghost use Rattle.debugger.specs.Standing.{inside_text};
ghost use Rattle.debugger.specs.CallsTold.{call_line, call_lines, calls_text, spot_text};
ghost use Rattle.debugger.specs.Desks.{Looks};

use crate::desk::Desk;
use crate::routines::{Call, Calls, Routines};
use crate::standing::push_nearest;
use crate::texts::{Text, number_line};
use arrayvec::ArrayVec;
use replay::Keeper;
use space::place::Linear;
use symbols::Symbols;
use trace::place_text;
use words::{push_all, push_decimal};

/// The most bytes of the lines of calls: 80 for each of 64, 76 of an interrupt, and 31 of their number.
const CALLS_TEXT: usize = 5_232;

/// The lines of calls.
type CallsText = ArrayVec<u8, CALLS_TEXT>;

impl<'a, K: Keeper> Desk<'a, K> {
    /// `calls`: a line for each call that is in progress at the position, and how many there are.
    #[tactic(auto, unfolding(crate::specs::CallsTold::calls_text))]
    pub(crate) fn calls(&mut self) -> CallsText
        ensures text { result.items ≡ calls_text self.old.symbols.now self.old.session.now.scenario
            self.old.position }
        ensures looked { Looks (5 * self.old.session.now.n) self.old self.new }
    {
        let (calls, inside) = self.routines_now();
        let entered = self.inside_text(inside);
        let mut text = ArrayVec::new();
        push_calls(&mut text, self.symbols, calls.inside.list.as_slice());
        push_all(&mut text, entered.as_slice());
        push_calls(&mut text, self.symbols, calls.outside.list.as_slice());
        let count = calls.inside.list.len() + calls.outside.list.len();
        push_all(&mut text, number_line(b"COUNT ", count as u64).as_slice());
        text
    }

    /// The routines that are in progress at the position, and whether an interrupt is served.
    fn routines_now(&mut self) -> (Routines, bool)
        ensures outside { result.0.outside.list.items ≡ routines self.old.session.now.scenario self.old.position }
        ensures inside { result.0.inside.list.items ≡ routines_inside self.old.session.now.scenario
            self.old.position }
        ensures served { result.1 ≡ (run self.old.session.now.scenario self.old.position).inside }
        ensures looked { Looks (2 * self.old.session.now.n) self.old self.new }
    {
        let mut routines = self.routines_before();
        match self.session.show(self.position) {
            Ok(machine) => {
                routines.arrive(machine);
                (routines, machine.inside())
            }
            Err(_) => unreachable!(),
        }
    }

    /// The line of the interrupt, where one is served.
    fn inside_text(&mut self, inside: bool) -> Text
        requires known { inside ≡ (run self.old.session.now.scenario self.old.position).inside }
        ensures text { result.items ≡ inside_text self.old.symbols.now self.old.session.now.scenario
            self.old.position }
        ensures short { array_vec_len result ≤ 76 }
        ensures looked { Looks (3 * self.old.session.now.n) self.old self.new }
    {
        if inside {
            self.entered_text()
        } else {
            ArrayVec::new()
        }
    }
}

/// Appends a line for each of some calls, the last of them first.
fn push_calls(text: &mut CallsText, symbols: &Symbols, calls: &[Call])
    requires { array_vec_len text.old + 80 * length calls.now ≤ CALLS_TEXT }
    ensures items { text.new.items ≡ text.old.items ++ call_lines symbols.now calls.now }
    ensures short { array_vec_len text.new ≤ array_vec_len text.old + 80 * length calls.now }
{
    let mut left = calls.len();
    while left > 0 {
        left -= 1;
        push_all(text, call_line(symbols, &calls[left]).as_slice());
    }
}

/// The line of a call.
#[tactic(auto, using(words::proofs::Digits::short_decimal))]
fn call_line(symbols: &Symbols, call: &Call) -> Text
    ensures items { result.items ≡ call_line symbols.now call.now }
    ensures short { array_vec_len result ≤ 80 }
{
    let mut text = ArrayVec::new();
    push_all(&mut text, b"CALL ");
    push_decimal(&mut text, call.step);
    push_all(&mut text, b" ");
    push_all(&mut text, spot_text(symbols, &call.from).as_slice());
    push_all(&mut text, b" TO ");
    push_all(&mut text, spot_text(symbols, &call.routine).as_slice());
    push_all(&mut text, b"\n");
    text
}

/// A place as a listing has it, and by a symbol.
pub(crate) fn spot_text(symbols: &Symbols, place: &Linear) -> Text
    ensures items { result.items ≡ spot_text symbols.now place.now }
    ensures short { array_vec_len result ≤ 23 }
{
    let mut text = ArrayVec::new();
    push_all(&mut text, place_text(*place).as_slice());
    push_nearest(&mut text, symbols, place);
    text
}
