// The loop of a walk from position to position.
#![tactic(auto)]

ghost use Rattle.std.specs.Prelude.{◌≡◌, ℕ, Bool, Some, Option, ◌≤◌, length};
ghost use Rattle.search.specs.Search.{count};
ghost use Rattle.search.specs.Walks.{Walk, chain};
ghost use Rattle.walks.specs.declared.Made.{Made};
ghost use Rattle.walks.specs.Steps.{Takes};

use column::Run;

// A step that was made: whether what stands there counts as named, and where the next one stands.
#[derive(Clone, Copy, Debug, PartialEq, Eq)]
pub struct Made {
    pub named: bool,
    pub next: usize,
}

// At most `limit` steps from `start` on, as many as can be made. A step is given how many more may come after it, and where it starts.
#[inline(always)]
pub fn count_steps<F: Fn(usize, usize) -> Option<Made>>(limit: usize, start: usize, step: F) -> Run
    requires first { (left : ℕ) → F.pre step left start }
    requires further { (left offset more : ℕ) (made : Made) → F.post step left offset (Some made) → F.pre step more made.next }
    ensures counts { (walk : Walk Bool) → ((left offset : ℕ) (made : Option Made) → F.post step left offset made → Takes walk left offset made)
        → (result.count ≡ length (chain walk limit 0 start)) × (result.named ≡ count (λ b. b) (chain walk limit 0 start)) }
    ensures few { (result.named ≤ result.count) × (result.count ≤ limit) }
{
    let mut offset = start;
    let mut named = 0;
    for count in 0..limit {
        let Some(made) = step(limit - (count + 1), offset) else {
            return Run { count, named };
        };
        named += usize::from(made.named);
        offset = made.next;
    }
    Run {
        count: limit,
        named,
    }
}
