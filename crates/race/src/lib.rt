// Sub-predictors compete: the winner, the scores, the hits and the longest run. MultiMCW runs it with four windows, MultiMMC with sixteen levels.
#![tactic(auto)]

ghost use Rattle.std.specs.Prelude.{◌≡◌, ◌<◌, length};
ghost use Rattle.race.specs.Race.{judge};
ghost use Rattle.race.specs.Inner.Held.{Countable, Leadable, Led, after, ended, heard, settled, tallied, verdicts_on};
ghost use Rattle.race.specs.Inner.Raced.{Room, Scores, counted, outcome_in, pointed, raced_on, unraced};

use std::marker::Model;

// The guess of a sub-predictor that does not take part, of guesses as numbers.
// Kept: (b) with `SILENT`, `count`, `lead` and `ended` MultiMCW on bits takes 113 instructions a bit, and with `Race` 124.
pub const SILENT: u16 = 256;

// C so far, the hits since the last miss, and the longest run.
#[derive(Clone, Copy, Default)]
pub struct Tally {
    pub hits: u64,
    pub run: u64,
    pub longest: u64,
}

// The counts after the winner's guess is held against x.
pub fn count(t: Tally, guess: u16, x: u16) -> Tally
    requires { Countable t x }
    ensures { result ≡ tallied (judge (heard guess) x) t }
{
    let mut hits = t.hits;
    let mut run = t.run;
    if guess == x {
        hits += 1;
        run += 1;
    } else if guess < SILENT {
        run = 0;
    }
    let mut longest = t.longest;
    if longest < run {
        longest = run;
    }
    Tally { hits, run, longest }
}

// Who wins, and what a right guess has to reach: the winner's score, and 1 at least.
#[derive(Clone, Copy)]
pub struct Leader {
    pub winner: usize,
    pub bar: u64,
}

// The points of one place, where x comes: each right guess gains one, and wins if its score is then at least the winner's.
pub fn lead(scores: &mut [u64], guesses: &[u16], leader: Leader, x: u16) -> Leader
    requires { Leadable scores.old guesses.now leader x }
    ensures { Led (settled (verdicts_on guesses.now x) (after leader.winner scores.old) (length guesses.now)) result
        scores.new }
{
    let mut winner = leader.winner;
    let mut bar = leader.bar;
    let mut j: usize = 0;
    while j < guesses.len() {
        // A right guess claims its new score, any other 0, which never reaches the bar.
        let mut points = scores[j];
        let mut claim: u64 = 0;
        if guesses[j] == x {
            points += 1;
            claim = points;
        }
        scores[j] = points;
        if bar <= claim {
            winner = j;
            bar = claim;
        }
        j += 1;
    }
    Leader { winner, bar }
}

// How a race ends: C, the longest run, the winner counted from 1, and its score.
#[derive(Clone, Copy)]
pub struct Outcome {
    pub hits: u64,
    pub longest: u64,
    pub winner: u64,
    pub score: u64,
}

// The outcome of the counts and the standing after the last place.
pub fn ended(t: Tally, leader: Leader, scores: &[u64]) -> Outcome
    requires { leader.winner < length scores.now }
    ensures { result ≡ ended t leader scores.now }
{
    let winner = leader.winner;
    Outcome {
        hits: t.hits,
        longest: t.longest,
        winner: winner as u64 + 1,
        score: scores[winner],
    }
}

// The race of M sub-predictors after some places: the scores, the winner, what a right guess has to reach to win, which is the winner's score and 1
// at least, and the counts.
#[derive(Drop)]
pub struct Race<const M: usize> {
    scores: [u64; M],
    winner: usize,
    bar: u64,
    tally: Tally,
}

// Clauses see the standing and the counts.
impl<const M: usize> Model for Race<M> {
    ghost use Rattle.std.specs.Prelude.{◌≡◌, ◌<◌, get_or, max};
    ghost use Rattle.race.specs.Inner.Raced.{Raced};

    ghost Value = { Raced };

    ghost view = { λ r. record { standing = record { winner = r.winner; scores = r.scores }; tally = r.tally } };

    ghost invariant = { λ r. (r.winner < M) × (r.bar ≡ max (get_or r.scores r.winner 0) 1) };
}

impl<const M: usize> Race<M> {
    // Nobody has a point, and the first is the winner.
    pub fn new() -> Self
        requires { 0 < M }
        ensures { result ≡ unraced M }
    {
        Race {
            scores: [0; M],
            winner: 0,
            bar: 1,
            tally: Tally::default(),
        }
    }

    // The winner so far, from 0.
    pub fn winner(&self) -> usize
        ensures value { result ≡ self.now.standing.winner }
        ensures within { result < M }
    {
        self.winner
    }

    // One place, where x comes: the winner's guess is counted, and each right one gains a point.
    pub fn step(&mut self, guesses: &[Option<u8>; M], x: u8)
        requires { Room self.old }
        ensures { self.new ≡ raced_on self.old guesses.now x }
    {
        self.count(guesses[self.winner], x);
        self.lead(guesses, x);
    }

    // The counts after the winner's guess is held against x: a hit adds to C and to the run, a miss ends the run, and silence does neither.
    pub fn count(&mut self, guess: Option<u8>, x: u8)
        requires { Room self.old }
        ensures { self.new ≡ counted self.old guess x }
    {
        let mut tally = self.tally;
        if guess == Some(x) {
            tally.hits += 1;
            tally.run += 1;
        } else if guess.is_some() {
            tally.run = 0;
        }
        tally.longest = tally.longest.max(tally.run);
        self.tally = tally;
    }

    // The points of a place, where x comes: each right guess gains one, and wins if its score is then at least the winner's.
    pub fn lead(&mut self, guesses: &[Option<u8>; M], x: u8)
        requires { Scores self.old }
        ensures { self.new ≡ pointed self.old guesses.now x }
    {
        let mut winner = self.winner;
        let mut bar = self.bar;
        for (j, guess) in guesses.iter().enumerate() {
            // A right guess claims its new score, any other 0, which never reaches the bar.
            let mut points = self.scores[j];
            let mut claim = 0;
            if *guess == Some(x) {
                points += 1;
                claim = points;
            }
            self.scores[j] = points;
            if bar <= claim {
                winner = j;
                bar = claim;
            }
        }
        self.winner = winner;
        self.bar = bar;
    }

    // How the race ends.
    pub fn outcome(&self) -> Outcome
        ensures { result ≡ outcome_in self.now }
    {
        Outcome {
            hits: self.tally.hits,
            longest: self.tally.longest,
            winner: self.winner as u64 + 1,
            score: self.scores[self.winner],
        }
    }
}
