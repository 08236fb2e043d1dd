// The race from place to place.
ghost use Rattle.std.specs.Prelude.{◌≡◌, ◌≤◌, ◌<◌, ◌^◌};
ghost use Rattle.race.specs.Inner.Raced.{Room, judged, outcome_in, unraced};
ghost use Rattle.verdicts.specs.Inner.Racing.{raced_in};
ghost use Rattle.verdicts.specs.Inner.Told.{digit, verdict_in};

use crate::Masks;
use crate::above::{mask_of, shift};
use crate::planes::{choose, claim, ripple, top_bit};
use crate::tally::count_masks;
use race::{Outcome, Tally};
use std::marker::Model;

// The race of M sub-predictors, sixteen at most, after some places. The deficit of each is how far its score is behind the largest, which is the winner's:
// digit j of planes[k] is digit k of the deficit of j, up[j] has what is above six digits, and digit j of `far` is 1 where that is not 0.
#[derive(Clone, Copy)]
pub struct Race<const M: usize> {
    planes: [u32; 6],
    up: [u64; M],
    far: u32,
    winner: usize,
    score: u64,
    tally: Tally,
}

// Clauses see the fields, and `raced_in` says what standing and counts they stand for.
impl<const M: usize> Model for Race<M> {
    ghost use Rattle.verdicts.specs.Inner.Racing.{Fields, Holds};

    ghost Value = { Fields };

    ghost view = { λ r. record {
      planes = r.planes;
      up = r.up;
      far = r.far;
      winner = r.winner;
      score = r.score;
      tally = r.tally;
    } };

    ghost invariant = { λ r. Holds M r.planes r.up r.far r.winner r.score };

    ghost inverse = { λ r. record {
      planes = r.planes;
      up = r.up;
      far = r.far;
      winner = r.winner;
      score = r.score;
      tally = r.tally;
    } };
}

impl<const M: usize> Race<M> {
    // Before the first place nobody has a score.
    pub fn new() -> Self
        requires some { 0 < M }
        requires few { M ≤ 16 }
        ensures { raced_in M result ≡ unraced M }
    {
        Race {
            planes: [0; 6],
            up: [0; M],
            far: 0,
            winner: 0,
            score: 0,
            tally: Tally::default(),
        }
    }

    // One place: the winner's verdict is counted, and each right one gains a point. Where none was right no score moves.
    pub fn step(&mut self, masks: Masks)
        requires room { Room (raced_in M self.old) }
        requires narrow { masks.rights < 2 ^ M }
        requires spoke { self.old.winner < M → digit masks.rights self.old.winner ≤ digit masks.speaking self.old.winner }
        ensures { raced_in M self.new ≡ judged M (raced_in M self.old) (verdict_in masks) }
    {
        let rights = masks.rights;
        self.tally = count_masks(self.tally, masks, self.winner);
        if rights == 0 {
            return;
        }
        // every sub-predictor
        let all: u32 = (1 << M) - 1;
        let claimed = claim(&self.planes, self.far, rights);
        let choice = choose(claimed, rights, all);
        self.winner = top_bit(choice.claim, self.winner);
        self.score += choice.gained;
        let carry = ripple(&mut self.planes, choice.through, choice.away);
        if carry != 0 {
            shift(&mut self.up, carry ^ (choice.away ^ all), choice.gained);
            self.far = mask_of(&self.up);
        }
    }

    // The counts so far.
    pub fn tally(&self) -> Tally
        ensures { result ≡ self.now.tally }
    {
        self.tally
    }

    // How the race ends.
    pub fn outcome(&self) -> Outcome
        ensures { result ≡ outcome_in (raced_in M self.now) }
    {
        Outcome {
            hits: self.tally.hits,
            longest: self.tally.longest,
            winner: self.winner as u64 + 1,
            score: self.score,
        }
    }
}
