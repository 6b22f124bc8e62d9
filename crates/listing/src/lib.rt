// Which candidates are names, by either of two rules. Each rule goes through the candidates once, and lists some of them.
#![tactic(auto)]

ghost use Rattle.std.specs.Prelude.{◌≡◌, length};
ghost use Rattle.std.specs.Iterator.{item_count};
ghost use Rattle.candidates.specs.Candidates.{candidates};
ghost use Rattle.candidates.specs.View.{text_at, reply_of, behind, in_view};
ghost use Rattle.listing.specs.declared.Rule.TheVariants.{Returning, BeforeFirst};
ghost use Rattle.listing.specs.Listing.{returns, is_before, is_listed, after, unlisted, listed, listed_by, InsideListing, to_come, YieldsListed};

use candidates::View;
use text::Text;

// Returning: the text returns four candidates later and not between, and the search goes on five later. BeforeFirst: the candidate is unlike
// the reply's first, and just before a repeat of it; equal neighbours in the list are kept once.
// An enum and no trait: the rule whose list is taken is known only by the counts, and is then a value of the plan.
#[derive(Clone, Copy, Debug, PartialEq, Eq)]
pub enum Rule {
    Returning,
    BeforeFirst,
}

// `text` is the view's first, here and below. It is handed on: by the view alone, each function would have to ask once more whether there is
// one, and its promise would be of a text only where there is.
#[tactic(auto, unfolding(crate::specs::Listing::returns, candidates::specs::View::behind))]
#[inline(always)]
fn returns(text: Text, view: &View) -> bool
    ensures { result ≡ returns (reply_of view.now) text (behind view.now) }
{
    let reply = view.reply();
    let [_, Some(second), Some(third), Some(fourth), Some(fifth)] = view.texts else {
        return false;
    };
    candidates::same_text(reply, text, fifth)
        && !(candidates::same_text(reply, text, second)
            || candidates::same_text(reply, text, third)
            || candidates::same_text(reply, text, fourth))
}

#[tactic(auto, unfolding(crate::specs::Listing::is_before, candidates::specs::View::behind))]
#[inline(always)]
fn is_before(first: Option<Text>, text: Text, view: &View) -> bool
    ensures { result ≡ is_before (reply_of view.now) first text (behind view.now) }
{
    let reply = view.reply();
    let [_, Some(second), ..] = view.texts else {
        return false;
    };
    candidates::repeats(reply, second, first) && !candidates::repeats(reply, text, first)
}

// What a rule has to know behind a candidate: the reply's first, how many are passed over until the search goes on, and the last one listed.
#[derive(Clone, Copy, Debug, PartialEq, Eq)]
struct Listing {
    first: Option<Text>,
    skip: usize,
    last: Option<Text>,
}

impl Listing {
    // Before any candidate.
    fn before(first: Option<Text>) -> Self
        ensures { result ≡ unlisted first }
    {
        Listing {
            first,
            skip: 0,
            last: None,
        }
    }

    // Whether the rule lists the first candidate in view.
    #[tactic(auto, unfolding(crate::specs::Listing::is_listed))]
    #[inline(always)]
    fn lists(&self, rule: Rule, text: Text, view: &View) -> bool
        ensures { result ≡ is_listed (reply_of view.now) rule self.now text (behind view.now) }
    {
        match rule {
            Rule::Returning => self.skip == 0 && returns(text, view),
            Rule::BeforeFirst => {
                is_before(self.first, text, view)
                    && !candidates::repeats(view.reply(), text, self.last)
            }
        }
    }

    // Goes on behind the first candidate in view, and says whether the rule lists it.
    #[tactic(auto, unfolding(crate::specs::Listing::after))]
    #[inline(always)]
    fn step(&mut self, rule: Rule, text: Text, view: &View) -> bool
        ensures lists { result ≡ is_listed (reply_of view.now) rule self.old text (behind view.now) }
        ensures goes_on { self.new ≡ after self.old text result }
    {
        let lists = self.lists(rule, text, view);
        if lists {
            self.skip = 4;
            self.last = Some(text);
        } else {
            self.skip = self.skip.saturating_sub(1);
        }
        lists
    }
}

// How many names each rule lists, and the view of the first candidates, from which they are listed again.
#[derive(Clone, Copy, Debug, PartialEq, Eq)]
pub struct Counts<'a> {
    pub view: View<'a>,
    pub returning: usize,
    pub before_first: usize,
}

// Both rules in one pass. A `while let`: what is asked of a text is asked together with the view that it stands in, so the view is no iterator.
#[tactic(auto, using(crate::proofs::Lists::in_view_some, crate::proofs::Lists::listed_yes, crate::proofs::Lists::listed_no, crate::proofs::Lists::first_in_view, crate::proofs::Lists::listed_by_few), unfolding(crate::specs::Listing::listed_by))]
pub fn count_names(reply: &[u8]) -> Counts<'_>
    ensures returning { result.returning ≡ length (listed_by reply.now Returning) }
    ensures before_first { result.before_first ≡ length (listed_by reply.now BeforeFirst) }
    ensures in_view { in_view result.view ≡ candidates reply.now }
    ensures same_reply { reply_of result.view ≡ reply.now }
{
    let start = View::of(reply);
    let mut view = start;
    let mut of_returning = Listing::before(start.first());
    let mut of_before = of_returning;
    let mut returning = 0;
    let mut before_first = 0;
    while let Some(text) = view.first() {
        returning += usize::from(of_returning.step(Rule::Returning, text, &view));
        before_first += usize::from(of_before.step(Rule::BeforeFirst, text, &view));
        view.shift();
    }
    Counts {
        view: start,
        returning,
        before_first,
    }
}

// The names that a rule lists, in order.
#[derive(Clone, Copy, Debug, PartialEq, Eq)]
pub struct Listed<'a> {
    rule: Rule,
    listing: Listing,
    view: View<'a>,
}

impl<'a> Listed<'a> {
    // Those of a reply, from the view of its first candidates on.
    #[tactic(auto, using(crate::proofs::Lists::first_in_view), unfolding(crate::specs::Listing::listed_by))]
    pub fn by(rule: Rule, view: View<'a>) -> Self
        ensures from_view { to_come result ≡ listed (reply_of view.entry) rule (unlisted (text_at view.entry 0)) (in_view view.entry) }
        ensures all { in_view view.entry ≡ candidates (reply_of view.entry) → to_come result ≡ listed_by (reply_of view.entry) rule }
        ensures within { InsideListing (reply_of view.entry) result.listing }
        ensures view { result.view ≡ view.entry }
    {
        Listed {
            rule,
            listing: Listing::before(view.first()),
            view,
        }
    }
}

impl<'a> Iterator for Listed<'a> {
    type Item = Text;

    ghost next_gives = { YieldsListed };

    ghost remaining = { item_count to_come };

    #[tactic(auto, using(crate::proofs::Lists::in_view_none, crate::proofs::Lists::in_view_some, crate::proofs::Lists::listed_none, crate::proofs::Lists::listed_yes, crate::proofs::Lists::listed_no, crate::proofs::Lists::inside_after))]
    fn next(&mut self) -> Option<Text> {
        while let Some(text) = self.view.first() {
            let is_listed = self.listing.step(self.rule, text, &self.view);
            self.view.shift();
            if is_listed {
                return Some(text);
            }
        }
        None
    }
}
