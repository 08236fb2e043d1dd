// Captures by rule: two draws a place, from a state that is multiplied by 48,271 modulo 2,147,483,647.

// The longest capture of the list.
pub const LONGEST: usize = 16_384;

// How the symbols of a capture follow from the draws.
#[derive(Clone, Copy)]
pub enum Shape {
    Uniform,
    MostlyZero,
    Sticky,
    InTurn,
    MostlyInTurn,
}

impl From<u8> for Shape {
    fn from(number: u8) -> Shape {
        match number {
            0 => Shape::Uniform,
            1 => Shape::MostlyZero,
            2 => Shape::Sticky,
            3 => Shape::InTurn,
            _ => Shape::MostlyInTurn,
        }
    }
}

// The state of the draws.
#[derive(Clone, Copy)]
struct Draws(u32);

impl Draws {
    fn draw(&mut self) -> u64 {
        let next = u64::from(self.0) * 48_271 % 2_147_483_647;
        self.0 = next as u32;
        next / 128
    }
}

// x modulo the number of values, which is at most 256.
fn below(x: u64, values: u64) -> u8 {
    let y = x.checked_rem(values).unwrap_or(0);
    u8::try_from(y).unwrap_or(0)
}

#[derive(Clone, Copy)]
pub struct Rule {
    pub shape: Shape,
    pub values: u64,
    pub length: usize,
    pub seed: u32,
}

impl Rule {
    // The symbol of a place: any value, the place's own in turn, 0 or the symbol before, as the draw r says.
    fn symbol(&self, any: u8, turn: u8, r: u64, before: u8) -> u8 {
        let part = r % 16;
        match self.shape {
            Shape::Uniform => any,
            Shape::MostlyZero => if part < 12 { 0 } else { any },
            Shape::Sticky => if part < 14 { before } else { any },
            Shape::InTurn => turn,
            Shape::MostlyInTurn => if part < 15 { turn } else { any },
        }
    }

    // Puts the capture into `out`.
    pub fn fill(&self, out: &mut [u8]) {
        let mut draws = Draws(self.seed % 2_147_483_647);
        let mut before = 0;
        for (place, symbol) in out.iter_mut().enumerate() {
            let r = draws.draw();
            let any = below(draws.draw(), self.values);
            let turn = below(place as u64, self.values);
            before = self.symbol(any, turn, r, before);
            *symbol = before;
        }
    }
}
