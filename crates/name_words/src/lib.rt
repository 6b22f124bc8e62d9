// The name scan for programs that cannot lend a list of texts: each text in 3 words of 64 bits.
#![tactic(auto)]

ghost use Rattle.std.specs.Prelude.{[], ◌≡◌, ◌*◌, ◌/◌, ◌≤◌, MatchResult, length};
ghost use Rattle.search.specs.Search.{over};
ghost use Rattle.codepage.specs.Page.{page037};
ghost use Rattle.outcome.specs.Refusal.{refusal_in};
ghost use Rattle.names.specs.Decision.{names_of_plan};
ghost use Rattle.names.specs.Names.{name_scan};
ghost use Rattle.name_words.specs.Texts.{words_of_text, text_words};

use names::Plan;
use outcome::Refusal;
use text::Text;

// Writes a text's words at the front. No `From`: `Text` and `[u64; 3]` are other crates' types.
fn put_text_words(text: Text, words: &mut [u64])
    requires { 3 ≤ length words.old }
    ensures { words.new ≡ over (words_of_text text) words.old }
{
    words[..3].copy_from_slice(&[
        text.place as u64,
        text.length as u64,
        u64::from(text.alphabet),
    ]);
}

// Writes the words of a plan's names.
fn fill_words(plan: Plan<'_>, words: &mut [u64])
    requires { length (names_of_plan plan) * 3 ≤ length words.old }
    ensures { words.new ≡ over (text_words (names_of_plan plan.entry)) words.old }
{
    filling::fill_blocks(plan, 3, words, put_text_words);
}

// The entry name scan, with room for a text in each 3 words: how many names were written. Nothing is written where it refuses.
// `names` writes records, by another filler.
#[tactic(auto, using(crate::proofs::Words::no_words))]
pub fn scan_column_names(reply: &[u8], words: &mut [u64]) -> Result<usize, Refusal>
    ensures refuses { refusal_in result ≡ (name_scan page037 (length words.old / 3) reply.now).refusal }
    ensures counts { MatchResult result
        (λ count. count ≡ length (name_scan page037 (length words.old / 3) reply.now).names)
        (λ refusal. (name_scan page037 (length words.old / 3) reply.now).names ≡ []) }
    ensures fills { words.new ≡ over (text_words (name_scan page037 (length words.old / 3) reply.now).names) words.old }
{
    let plan = names::decide(reply, words.len() / 3)?;
    fill_words(plan, words);
    Ok(plan.count)
}
