// The name scan: the names of a reply's columns by their strings alone, written into a list that the caller lends.
#![tactic(auto)]

ghost use Rattle.std.specs.Prelude.{[], ◌≡◌, ◌≤◌, MatchResult, length};
ghost use Rattle.std.specs.Iterator.{YieldsFirst, item_count};
ghost use Rattle.search.specs.Search.{over};
ghost use Rattle.codepage.specs.Page.{page037};
ghost use Rattle.outcome.specs.Refusal.{refusal_in};
ghost use Rattle.names.specs.Names.{column_names, name_scan};
ghost use Rattle.names.specs.Decision.{names_of, names_of_plan, IsPlanOf};

use listing::{Listed, Rule};
use name_run::RunNames;
use outcome::Refusal;
use text::Text;

// An enum, and no closure: which source it is, is known only at run time, and a plan keeps it.
// Where the names are found: among the candidates, by a rule, or in a run of layouts.
#[derive(Clone, Copy, Debug, PartialEq, Eq)]
pub enum Source<'a> {
    Candidates(Listed<'a>),
    Layouts(RunNames<'a>),
}

impl<'a> Iterator for Source<'a> {
    type Item = Text;

    ghost next_gives = { YieldsFirst names_of };

    ghost remaining = { item_count names_of };

    fn next(&mut self) -> Option<Text> {
        match self {
            Source::Candidates(names) => names.next(),
            Source::Layouts(names) => names.next(),
        }
    }
}

// So many names are to be taken from their source. The next one behind them isn't looked for. The count is a field, and no method:
// `plan.count()` would be the iterator's, which goes through all names.
// No `source.take(count)` by who writes them: it was tried, and is longer. Each of the two proves by itself there what `names_of_plan` says here
// once.
#[derive(Clone, Copy, Debug, PartialEq, Eq)]
pub struct Plan<'a> {
    source: Source<'a>,
    pub count: usize,
}

impl<'a> Iterator for Plan<'a> {
    type Item = Text;

    ghost next_gives = { YieldsFirst names_of_plan };

    ghost remaining = { item_count names_of_plan };

    #[tactic(auto, using(crate::proofs::Choosing::plan_next))]
    fn next(&mut self) -> Option<Text> {
        self.count = self.count.checked_sub(1)?;
        self.source.next()
    }
}

// Which of the three lists is taken. A list of candidates counts from two names on, and the second only if it is longer.
#[tactic(auto, using(crate::proofs::Choosing::names_second, crate::proofs::Choosing::names_first, crate::proofs::Choosing::plan_listed))]
fn plan_names(reply: &[u8]) -> Plan<'_>
    ensures { IsPlanOf result (column_names page037 reply.now) }
{
    let counts = listing::count_names(reply);
    let view = counts.view;
    let returning = counts.returning;
    let before = counts.before_first;
    if (2 <= before) & (returning < before) {
        return Plan {
            source: Source::Candidates(Listed::by(Rule::BeforeFirst, view)),
            count: before,
        };
    }
    if 2 <= returning {
        return Plan {
            source: Source::Candidates(Listed::by(Rule::Returning, view)),
            count: returning,
        };
    }
    let run = name_run::longest_name_run(reply);
    Plan {
        source: Source::Layouts(RunNames::of(reply, run)),
        count: run.count,
    }
}

// Every refusal is decided here, before the list is written: `room` is how many names it takes. Another than `plan::decide`: that one decides over
// descriptions, by other limits.
#[tactic(auto, using(crate::proofs::Deciding::too_long, crate::proofs::Deciding::too_short, crate::proofs::Deciding::in_room))]
pub fn decide(reply: &[u8], room: usize) -> Result<Plan<'_>, Refusal>
    ensures refuses { refusal_in result ≡ (name_scan page037 room reply.now).refusal }
    ensures plans { MatchResult result
        (λ plan. IsPlanOf plan (name_scan page037 room reply.now).names × (plan.count ≤ room))
        (λ refusal. (name_scan page037 room reply.now).names ≡ []) }
{
    if reply.len() > outcome::MOST_BYTES {
        return Err(Refusal::ReplyTooLong);
    }
    let plan = plan_names(reply);
    if room < plan.count {
        return Err(Refusal::RoomTooShort { needed: plan.count });
    }
    Ok(plan)
}

// The entry name scan: how many names were written. Nothing is written where it refuses. `name_words` writes words, a block of them
// for each name, by another filler.
pub fn scan_column_names(reply: &[u8], names: &mut [Text]) -> Result<usize, Refusal>
    ensures refuses { refusal_in result ≡ (name_scan page037 (length names.old) reply.now).refusal }
    ensures counts { MatchResult result
        (λ count. count ≡ length (name_scan page037 (length names.old) reply.now).names)
        (λ refusal. (name_scan page037 (length names.old) reply.now).names ≡ []) }
    ensures fills { names.new ≡ over (name_scan page037 (length names.old) reply.now).names names.old }
{
    let plan = decide(reply, names.len())?;
    filling::fill(plan, names);
    Ok(plan.count)
}
