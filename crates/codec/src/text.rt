// Text: which bytes are UTF-8 as RFC 3629 allows it (document 02, W7).
// The table stands here, and not `std::str::from_utf8`: four must-fail edits change it (surrogates_pass, overlong_passes and the like).
ghost use Rattle.std.specs.Prelude.{◌≡◌, ◌+◌, ◌≤◌, ◌<◌, length, drop};
ghost use Rattle.codec.specs.Text.{tail, table, in_range, behind_first, fits, character_len, well_formed, ranges_of};

// What a character that has begun still needs: so many bytes, the next of them from `low` to `high`, the others from 0x80 to 0xBF.
#[derive(Clone, Copy)]
struct Wait {
    need: u8,
    low: u8,
    high: u8,
}

// No character needs so many: the bytes until here begin no text. A mark, and no Option: specs/Text.antt's words are these numbers, and the same
// edits change them; with an enum in the loop a byte took three times as long (decision 150).
const ILL_FORMED: u8 = 4;

fn waits(need: u8, low: u8, high: u8) -> Wait
    ensures { result ≡ record { need = need; low = low; high = high } }
{
    Wait { need, low, high }
}

// The first two rows of RFC 3629's table, which most names need alone; bytes between them begin no character.
#[tactic(auto, unfolding(crate::specs::Text::ranges_of, crate::specs::Text::table))]
fn first_low(b: u8) -> Wait
    requires { b < 0xE0 }
    ensures { ranges_of result ≡ behind_first table b }
{
    if b < 0x80 {
        return waits(0, 0x80, 0xBF);
    }
    if b < 0xC2 {
        return waits(ILL_FORMED, 0, 0);
    }
    waits(1, 0x80, 0xBF)
}

// The whole table, by the first byte of a character. Overlong forms, surrogates and what lies above U+10FFFF are in none of its rows.
#[tactic(auto, unfolding(crate::specs::Text::ranges_of, crate::specs::Text::table))]
fn first(b: u8) -> Wait
    ensures { ranges_of result ≡ behind_first table b }
{
    if b < 0xE0 {
        return first_low(b);
    }
    match b {
        0xE0 => waits(2, 0xA0, 0xBF),
        0xE1..=0xEC => waits(2, 0x80, 0xBF),
        0xED => waits(2, 0x80, 0x9F),
        0xEE..=0xEF => waits(2, 0x80, 0xBF),
        0xF0 => waits(3, 0x90, 0xBF),
        0xF1..=0xF3 => waits(3, 0x80, 0xBF),
        0xF4 => waits(3, 0x80, 0x8F),
        _ => waits(ILL_FORMED, 0, 0),
    }
}

fn is_tail(b: u8) -> bool
    ensures { result ≡ in_range tail b }
{
    if b < 0x80 {
        return false;
    }
    b <= 0xBF
}

// Whether the bytes behind a character's first, which are there, are what it needs.
#[tactic(auto, using(crate::proofs::text::Fits::fit_laws))]
fn fit_behind(text: &[u8], at: usize, w: Wait) -> bool
    requires { (w.need ≤ 3) × (at + w.need < length text.now) }
    ensures { result ≡ fits (ranges_of w) (drop (at + 1) text.now) }
{
    if w.need == 0 {
        return true;
    }
    let b = text[at + 1];
    if b < w.low {
        return false;
    }
    if w.high < b {
        return false;
    }
    if w.need == 1 {
        return true;
    }
    if !is_tail(text[at + 2]) {
        return false;
    }
    if w.need == 2 {
        return true;
    }
    is_tail(text[at + 3])
}

// How many bytes the character at `at` has; 0: none begins there.
fn character_len(text: &[u8], at: usize) -> usize
    requires { at < length text.now }
    ensures { result ≡ character_len (drop at text.now) }
{
    let b = text[at];
    if b < 0x80 {
        return 1;
    }
    let w = first(b);
    if ILL_FORMED <= w.need {
        return 0;
    }
    let need = w.need as usize;
    if text.len() - at <= need {
        return 0;
    }
    if fit_behind(text, at, w) {
        return need + 1;
    }
    0
}

// Whether the bytes are well-formed UTF-8, in one pass that looks at each byte once.
pub fn is_text(text: &[u8]) -> bool
    ensures { result ≡ well_formed text.now }
{
    // A `while`, since each character says how many bytes it has.
    let mut at: usize = 0;
    while at < text.len() {
        let n = character_len(text, at);
        if n == 0 {
            return false;
        }
        at += n;
    }
    true
}
