//! Reading a word from the front of a text: the first whole word of several is looked for, and only where there is none what
//! they have in common with the text.
ghost use Rattle.std.specs.Prelude.{◌≡◌, ◌+◌, ◌<◌, ◌≤◌, ◌^◌, map, length};
ghost use Rattle.text_forms.specs.Reading.{word_at};
ghost use Rattle.text_forms.specs.Forms.{words_of};
ghost use Rattle.form_codec.specs.Finding.{find_at, best_of};
ghost use Rattle.form_codec.specs.Sees.{Sees};

use text_forms::part::Words;

/// How many bytes of a word the text begins with, and `n` more.
#[tactic(auto, unfolding(text_forms::specs::Reading::common))]
pub(crate) fn common(n: usize, word: &[u8], bytes: &[u8]) -> usize
    requires { n + length bytes.now < 2 ^ 64 }
    ensures value { result ≡ n + Rattle.text_forms.specs.Reading.common word.now bytes.now }
    ensures most { result ≤ n + length bytes.now }
{
    let [w, ws @ ..] = word else {
        return n;
    };
    let [b, rest @ ..] = bytes else {
        return n;
    };
    if *b == *w { common(n + 1, ws, rest) } else { n }
}

/// The place of the first of some words with which the text begins, and `k` more.
#[tactic(auto, unfolding(crate::specs::Finding::find_at))]
fn find(k: usize, words: &[&[u8]], bytes: &[u8]) -> usize
    requires { k + length words.now < 2 ^ 64 }
    ensures value { result ≡ k + find_at (map (λ w. w.now) words.now) bytes.now }
    ensures most { result ≤ k + length words.now }
{
    let [w, ws @ ..] = words else {
        return k;
    };
    if common(0, w, bytes) == w.len() {
        k
    } else {
        find(k + 1, ws, bytes)
    }
}

/// The most that a word and the text have in common.
#[tactic(auto, unfolding(crate::specs::Finding::best_of))]
fn best(longest: usize, words: &[&[u8]], bytes: &[u8]) -> usize
    requires { longest ≤ length bytes.now }
    ensures value { result ≡ best_of longest (map (λ w. w.now) words.now) bytes.now }
    ensures most { result ≤ length bytes.now }
{
    let [w, ws @ ..] = words else {
        return longest;
    };
    let both = common(0, w, bytes);
    let longest = if both < longest { longest } else { both };
    best(longest, ws, bytes)
}

/// The place of the word with which the text begins, and what follows it.
pub(crate) fn word<'a>(words: &[&[u8]], bytes: &'a [u8]) -> Result<(u64, &'a [u8]), usize>
    ensures { Sees (λ x. (x.0, x.1.now)) result (word_at 0 0 (map (λ w. w.now) words.now) bytes.now) }
{
    let k = find(0, words, bytes);
    if k < words.len() {
        let (_, rest) = bytes.split_at(words[k].len());
        Ok((k as u64, rest))
    } else {
        Err(bytes.len() - best(0, words, bytes))
    }
}

/// The words of a set, by their places.
pub(crate) fn spellings(words: Words) -> &'static [&'static [u8]]
    ensures words { map (λ w. w.now) result.now ≡ words_of words }
    ensures few { length result.now ≤ 8 }
{
    match words {
        Words::Kind => &[b" eq", b" un"],
        Words::Position => &[b" normal", b" reverse"],
        Words::Direction => &[b" +", b" -"],
        Words::Occupancy => &[b" free", b" occ"],
        Words::KeepFault => &[b" old", b" new", b" get"],
        Words::Answer => &[b" taken", b" refused"],
        Words::EntryRefusal => &[b" known", b" toomany", b" toolong"],
        Words::EntryObstacle => &[b" held", b" notfree"],
        Words::ShortRefusal => &[b" away", b" unequipped", b" pending", b" place"],
        Words::SwitchObstacle => &[b" held", b" section"],
        Words::FrameFault => &[b" short", b" version", b" kind", b" long"],
        Words::FieldFault => &[b" field"],
    }
}
