// Laws of the definitions.
ghost use Rattle.std.specs.Prelude.{◌≡◌, ℕ, List, length};
ghost use Rattle.prog_gen.specs.File.{Adds};
ghost use Rattle.prog_gen.specs.Demo.{demo_instrs, demo_headers};

/// The demo program of a number has one file.
pub fn one_demo()
    ensures { (n : ℕ) (file other : List ℕ) → Adds (demo_instrs n) demo_headers file
        → Adds (demo_instrs n) demo_headers other → file ≡ other }
{}

/// The file of a demo program has 2,640 bytes.
pub fn demo_size()
    ensures { (n : ℕ) (file : List ℕ) → Adds (demo_instrs n) demo_headers file
        → length file ≡ 2640 }
{}
