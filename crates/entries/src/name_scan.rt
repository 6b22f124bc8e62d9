// The name scan, which writes texts as words.
ghost use Rattle.std.specs.Prelude.{◌≡◌, ◌/◌, length};
ghost use Rattle.search.specs.Search.{over};
ghost use Rattle.codepage.specs.Page.{page037};
ghost use Rattle.outcome.specs.Refusal.{in_numbers};
ghost use Rattle.names.specs.Names.{name_scan};
ghost use Rattle.name_words.specs.Texts.{text_words};

use crate::CountResult;

// The entry name scan, with room for a text in each 3 words. Nothing is written where it refuses.
#[tactic(auto, using(crate::proofs::Scans::scan_counted))]
pub fn scan_column_names(reply: &[u8], names: &mut [u64]) -> CountResult
    ensures refuses { result.refusal ≡ in_numbers (name_scan page037 (length names.old / 3) reply.now).refusal }
    ensures counts { result.count ≡ length (name_scan page037 (length names.old / 3) reply.now).names }
    ensures fills { names.new ≡ over (text_words (name_scan page037 (length names.old / 3) reply.now).names) names.old }
{
    CountResult::from(name_words::scan_column_names(reply, names))
}
