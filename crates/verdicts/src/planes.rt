// The deficits' low digits, all sub-predictors at once.
ghost use Rattle.std.specs.Prelude.{length};
ghost use Rattle.verdicts.specs.Inner.Planes.{Chosen, Claims, LastDigit, Ripples};

// To the deficits at the digits of c, 1 is added where x has 0, and 1 is taken away where x has 1; returns what is left over.
pub fn ripple(planes: &mut [u32; 6], c: u32, x: u32) -> u32
    ensures { Ripples planes.old c x planes.new result }
{
    let mut carry = c;
    for plane in planes.iter_mut() {
        let digits = *plane;
        *plane = digits ^ carry;
        carry &= digits ^ x;
    }
    carry
}

// The right ones with no deficit, and those with a deficit of at most 1.
#[derive(Clone, Copy)]
pub struct Claimed {
    pub first: u32,
    pub near: u32,
}

// `far` has those with a deficit above the planes.
pub fn claim(planes: &[u32; 6], far: u32, rights: u32) -> Claimed
    ensures { Claims planes.now far rights result }
{
    let mut high = far;
    for plane in &planes[1..] {
        high |= *plane;
    }
    let near = rights ^ (rights & high);
    let first = near ^ (near & planes[0]);
    Claimed { first, near }
}

// Who claims to win, what goes through the planes, where it is taken away and not added, and what the largest score gains.
#[derive(Clone, Copy)]
pub struct Choice {
    pub claim: u32,
    pub through: u32,
    pub away: u32,
    pub gained: u64,
}

// If a leader was right, the wrong ones fall behind by one; if none was, the right ones come nearer by one. `all` has every sub-predictor.
pub fn choose(k: Claimed, rights: u32, all: u32) -> Choice
    ensures { Chosen k rights all result }
{
    let first = k.first;
    let near = k.near;
    // 1 if a leader was right
    let gained = (first as u64 + 0xffff_ffff) >> 32;
    let some = gained as u32;
    let away = all * (1 - some);
    let through = rights ^ (all * some);
    let claim = first + near * (1 - some);
    Choice {
        claim,
        through,
        away,
        gained,
    }
}

// The highest digit of x that is 1, or w if there is none.
pub fn top_bit(x: u32, w: usize) -> usize
    ensures { LastDigit x w result }
{
    if x == 0 {
        return w;
    }
    (31 - u32::leading_zeros(x)) as usize
}
