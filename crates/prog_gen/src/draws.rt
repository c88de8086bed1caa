// Numbers that are drawn from a seed.
ghost use Rattle.std.specs.Prelude.{◌≡◌, ◌+◌, ◌<◌, ◌^◌};
ghost use Rattle.prog_gen.specs.Draws.{state, draw};

const FACTOR: u64 = 6_364_136_223_846_793_005;

const SUMMAND: u64 = 1_442_695_040_888_963_407;

// The draws from a seed.
#[derive(Drop)]
pub struct Draws {
    seed: u32,
    // how many numbers were drawn
    made: u32,
    x: u64,
    ghost is_state: { x ≡ state seed made },
}

impl Draws {
    pub(crate) fn new(seed: u32) -> Draws
        ensures seed { result.seed ≡ seed }
        ensures made { result.made ≡ 0 }
    {
        Draws {
            seed,
            made: 0,
            x: u64::from(seed),
        }
    }

    // The next number, of 31 bits.
    pub(crate) fn draw(&mut self) -> u32
        requires { self.old.made < 2 ^ 31 }
        ensures value { result ≡ draw self.old.seed (self.old.made + 1) }
        ensures made { self.new.made ≡ self.old.made + 1 }
        ensures seed { self.new.seed ≡ self.old.seed }
    {
        self.x = self.x.wrapping_mul(FACTOR).wrapping_add(SUMMAND);
        self.made += 1;
        (self.x >> 33) as u32
    }
}
