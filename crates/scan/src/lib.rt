// The scan for runs of standard descriptors: from each start of the reply, all in big-endian order, then all in little-endian.
#![tactic(auto)]

ghost use Rattle.std.specs.Prelude.{◌≡◌, ◌+◌, ◌≤◌, true, pos, length, IfSome, MatchOption, unwrap_or};
ghost use Rattle.std.specs.Int.Signed.{lt_z};
ghost use Rattle.std.proofs.Props.{props};
ghost use Rattle.search.specs.Walks.{keep};
ghost use Rattle.codepage.specs.Page.{page037};
ghost use Rattle.scan.specs.Score.{exact_score};
ghost use Rattle.scan.specs.Scan.{score, better, no_run, run_from, scan_order, scan_best, Few};

use column::Run;
use field::ByteOrder;

// A run, where it starts and in which byte order. Definitions make such records, so what holds of those that are found stands in the types below.
#[derive(Clone, Copy, Debug, PartialEq, Eq)]
pub struct Best {
    pub start: usize,
    pub order: ByteOrder,
    pub run: Run,
}

// Exact: the Rust's own subtraction overflows where the generated columns outweigh the named ones.
#[tactic(auto, using(crate::proofs::Scores::minus_is), unfolding(crate::specs::Score::exact_score))]
pub fn exact_score(named: usize, columns: usize, generated: usize) -> i64
    requires { (named ≤ 512) × ((columns ≤ 512) × (generated ≤ 512)) }
    ensures { result ≡ exact_score named columns generated }
{
    ((named * 2048 + columns) as i64) - ((generated * 1024) as i64)
}

// A run that counts: it has two or more columns, and one that is named.
#[derive(Clone, Copy)]
struct Found {
    best: Best,
    ghost few: { Few best.run },
    ghost counts: { (2 ≤ best.run.count) × (1 ≤ best.run.named) },
}

impl Found {
    // The run from a start, if it counts. Reply and order are two arguments, as `descriptor` and `field` take them: a struct of both would be taken
    // apart again for each call of theirs.
    #[tactic(auto, unfolding(crate::specs::Scan::run_from, crate::specs::Scan::score))]
    fn from_start(reply: &[u8], order: ByteOrder, start: usize) -> Option<Self>
        requires { start ≤ length reply.now }
        ensures { MatchOption result (score (run_from page037 order reply.now start).run ≡ pos 0) (λ found. found.best ≡ run_from page037 order reply.now start) }
    {
        let run = descriptor::standard_run(reply, order, 512, start);
        if run.count < 2 || run.named == 0 {
            return None;
        }
        Some(Found {
            best: Best { start, order, run },
        })
    }

    #[tactic(auto, using(crate::proofs::Scores::score_counted))]
    fn score(self) -> i64
        ensures { result ≡ score self.best.run }
    {
        let run = self.best.run;
        exact_score(run.named, run.count, run.count - run.named)
    }
}

// The best run so far, if one has a score above 0: the score of a run that counts may be less.
#[derive(Clone, Copy)]
struct InHand {
    best: Option<Found>,
    ghost above: { IfSome best (λ found. lt_z (pos 0) (score found.best.run) ≡ true) } by { Prim.hlevel props },
}

impl InHand {
    ghost use Rattle.scan.specs.Inside.{in_hand};

    // 0 where there is none.
    #[tactic(auto, unfolding(crate::specs::Scan::score))]
    fn score(self) -> i64
        ensures { result ≡ score (in_hand self.best).run }
    {
        self.best.map_or(0, |found| found.score())
    }

    // Only a strictly greater score replaces.
    #[tactic(auto, using(crate::proofs::Scores::better_is, crate::proofs::Scans::keep_new, crate::proofs::Scans::keep_old, crate::proofs::Scans::new_above))]
    fn or(self, new: Found) -> Self
        ensures { in_hand result.best ≡ keep better (in_hand self.best) new.best }
    {
        if self.score() < new.score() {
            return InHand { best: Some(new) };
        }
        self
    }

    // One start more. Most have no known SQLTYPE, so no descriptor can be read there: they are passed over before a run is counted.
    #[tactic(auto, using(crate::proofs::Scans::start_passed, crate::proofs::Scans::not_counted))]
    fn with_start(self, reply: &[u8], order: ByteOrder, start: usize) -> Self
        requires { start + 16 ≤ length reply.now }
        ensures { in_hand result.best ≡ keep better (in_hand self.best) (run_from page037 order reply.now start) }
    {
        if !sqlda::is_known_sql_type(field::u16_at(reply, start + 12, order)) {
            return self;
        }
        let Some(new) = Found::from_start(reply, order, start) else {
            return self;
        };
        self.or(new)
    }

    // A `for`, and no `fold` of `0..end`: tried, it takes eight instructions more a start, and its proof says the loop's invariant again.
    #[tactic(auto, using(crate::proofs::Scans::scan_short, search::proofs::Best::best_more, search::proofs::Best::best_done), unfolding(crate::specs::Scan::scan_order))]
    fn with_order(self, reply: &[u8], order: ByteOrder) -> Self
        ensures { in_hand result.best ≡ scan_order page037 order reply.now (in_hand self.best) }
    {
        let Some(end) = reply.len().checked_sub(17) else {
            return self;
        };
        let mut best = self;
        for start in 0..end {
            best = best.with_start(reply, order, start);
        }
        best
    }
}

// The best run, if one has a score above 0.
#[tactic(auto, unfolding(crate::specs::Scan::scan_best))]
pub fn scan_standard_sqldagroups(reply: &[u8]) -> Option<Best>
    ensures value { unwrap_or result no_run ≡ scan_best page037 reply.now }
    ensures bounds { IfSome result (λ best. (1 ≤ best.run.count) × Few best.run) }
{
    InHand { best: None }
        .with_order(reply, ByteOrder::BigEndian)
        .with_order(reply, ByteOrder::LittleEndian)
        .best
        .map(|found| found.best)
}
