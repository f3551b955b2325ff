//! An account of each bank of a source beside a rope.

ghost use Rattle.std.specs.Prelude.{◌≡◌, ◌+◌, ◌≤◌, ◌++◌, true};
ghost use Rattle.arrayvec.specs.ArrayVec.{array_vec_len};
ghost use Rattle.words.specs.Devices.{Writes, failures_after};
ghost use Rattle.rope.specs.Places.{bank_words};
ghost use Rattle.certain.specs.Accounts.{account_line, account_of, account_told, accounts};
ghost use Rattle.certain.specs.Accounts.{count_of_kind, is_certain, is_hole, is_made, is_of, uncertain_part};

use crate::places::UncertainPlaces;
use arrayvec::ArrayVec;
use audit::{Written, bank_of, count_below, offset_of};
use rope::Rope;
use space::{BANK_WORDS, Bank, FIXED_BANKS, Offset};
use words::{Write, push_all, push_decimal, push_octal, write_all};

/// The most bytes of a line: its words, the number of a bank, and four numbers of at most 20 digits.
const LINE: usize = 128;

type Line = ArrayVec<u8, LINE>;

/// What the place of a source is beside a rope.
#[derive(Clone, Copy, Drop)]
pub(crate) enum Kind {
    /// The source makes its word, of no uncertain form.
    Certain,
    /// It does, and the rope has the same.
    Equal,
    /// The source makes its word, of an uncertain form.
    Uncertain,
    /// The source has no word for it.
    Hole,
}

/// How many places of a bank are of each kind.
#[derive(Clone, Copy, Drop)]
pub(crate) struct Account {
    certain: u32,
    equal: u32,
    uncertain: u32,
    holes: u32,
}

/// Writes a line for each bank in which a source fills a place, as `BANK 10 CERTAIN 812 EQUAL 812 UNCERTAIN 3 HOLES
/// 211`: how many places are certain, how many of these have the word of a rope, how many are uncertain, where any is,
/// and how many are holes. The holes are the places where a word stands, and `other` has another one.
///
/// After a failure a beginning of it was written.
#[tactic(auto, unfolding(crate::specs::Accounts::accounts))]
pub fn write_accounts<W: Write>(
    uncertain: &UncertainPlaces,
    words: &Rope,
    other: &Rope,
    new: &Rope,
    out: &mut W,
) -> Written
    ensures written { W.told ≡ true → Writes (W.written out.old) (W.written out.new)
        (accounts uncertain.now words.now other.now new.now) result }
    ensures failures { W.failures out.new ≡ failures_after (W.failures out.old) result }
{
    for bank in 0..FIXED_BANKS {
        write_all(
            out,
            account_line(uncertain, words, other, new, bank_of(bank)).as_slice(),
        )?;
    }
    Ok(())
}

// The line of a bank.
#[tactic(auto, unfolding(crate::specs::Accounts::account_line))]
fn account_line(
    uncertain: &UncertainPlaces,
    words: &Rope,
    other: &Rope,
    new: &Rope,
    bank: Bank,
) -> Line
    ensures { result.items ≡ account_line uncertain.now words.now other.now new.now bank }
{
    let account = account_of(uncertain, words, other, new, bank);
    account_told(bank, &account)
}

// The account of a bank.
#[tactic(auto, unfolding(crate::specs::Accounts::account_of))]
fn account_of(
    uncertain: &UncertainPlaces,
    words: &Rope,
    other: &Rope,
    new: &Rope,
    bank: Bank,
) -> Account
    ensures value { result ≡ account_of uncertain.now words.now other.now new.now bank }
    ensures certain { result.certain ≤ bank_words }
    ensures uncertain { result.uncertain ≤ bank_words }
    ensures holes { result.holes ≤ bank_words }
{
    Account {
        certain: count_of(Kind::Certain, uncertain, words, other, new, bank),
        equal: count_of(Kind::Equal, uncertain, words, other, new, bank),
        uncertain: count_of(Kind::Uncertain, uncertain, words, other, new, bank),
        holes: count_of(Kind::Hole, uncertain, words, other, new, bank),
    }
}

// How many places of a bank are of a kind.
fn count_of(
    kind: Kind,
    uncertain: &UncertainPlaces,
    words: &Rope,
    other: &Rope,
    new: &Rope,
    bank: Bank,
) -> u32
    ensures count { result ≡ count_of_kind kind uncertain.now words.now other.now new.now bank }
    ensures few { result ≤ bank_words }
{
    u32::from(count_below(BANK_WORDS, |number| {
        is_of(kind, uncertain, words, other, new, bank, offset_of(number))
    }))
}

// Whether a place is of a kind.
fn is_of(
    kind: Kind,
    uncertain: &UncertainPlaces,
    words: &Rope,
    other: &Rope,
    new: &Rope,
    bank: Bank,
    offset: Offset,
) -> bool
    ensures { result ≡ is_of kind uncertain.now words.now other.now new.now bank offset }
{
    match kind {
        Kind::Certain => is_certain(uncertain, words, other, bank, offset),
        Kind::Equal => {
            is_certain(uncertain, words, other, bank, offset)
                && words.word(bank, offset) == new.word(bank, offset)
        }
        Kind::Uncertain => {
            is_made(words, other, bank, offset) && uncertain.form_at(bank, offset).is_some()
        }
        Kind::Hole => is_hole(words, other, bank, offset),
    }
}

// Whether a place is a hole.
fn is_hole(words: &Rope, other: &Rope, bank: Bank, offset: Offset) -> bool
    ensures { result ≡ is_hole words.now other.now bank offset }
{
    words.has(bank, offset) && words.word(bank, offset) != other.word(bank, offset)
}

// Whether the source makes the word at a place.
fn is_made(words: &Rope, other: &Rope, bank: Bank, offset: Offset) -> bool
    ensures { result ≡ is_made words.now other.now bank offset }
{
    words.has(bank, offset) && words.word(bank, offset) == other.word(bank, offset)
}

// Whether it makes it, of no uncertain form.
fn is_certain(
    uncertain: &UncertainPlaces,
    words: &Rope,
    other: &Rope,
    bank: Bank,
    offset: Offset,
) -> bool
    ensures { result ≡ is_certain uncertain.now words.now other.now bank offset }
{
    is_made(words, other, bank, offset) && uncertain.form_at(bank, offset).is_none()
}

// The line of an account: none where the source fills no place of the bank.
#[tactic(auto, using(words::proofs::Digits::short_decimal))]
fn account_told(bank: Bank, account: &Account) -> Line
    requires certain { account.now.certain ≤ bank_words }
    requires uncertain { account.now.uncertain ≤ bank_words }
    requires holes { account.now.holes ≤ bank_words }
    ensures { result.items ≡ account_told bank account.now }
{
    let mut line = ArrayVec::new();
    if account.certain + account.uncertain + account.holes == 0 {
        return line;
    }
    push_all(&mut line, b"BANK ");
    push_octal(&mut line, 2, bank.number());
    push_all(&mut line, b" CERTAIN ");
    push_decimal(&mut line, u64::from(account.certain));
    push_all(&mut line, b" EQUAL ");
    push_decimal(&mut line, u64::from(account.equal));
    push_uncertain(&mut line, account.uncertain);
    push_all(&mut line, b" HOLES ");
    push_decimal(&mut line, u64::from(account.holes));
    push_all(&mut line, b"\n");
    line
}

// Appends how many places are uncertain, where any is.
#[tactic(auto, using(words::proofs::Digits::short_decimal))]
fn push_uncertain(line: &mut Line, count: u32)
    requires { array_vec_len line.old ≤ 66 }
    ensures items { line.new.items ≡ line.old.items ++ uncertain_part count }
    ensures len { array_vec_len line.new ≤ array_vec_len line.old + 31 }
{
    if count == 0 {
        return;
    }
    push_all(line, b" UNCERTAIN ");
    push_decimal(line, u64::from(count));
}
