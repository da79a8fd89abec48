// Definitions, tried on small data.
ghost use Rattle.std.specs.Prelude.{◌≡◌, codes, pos, negsuc};
ghost use Rattle.cert_lines.specs.Numbers.{clamped, IsNumeral};

fn numerals()
    ensures zero { IsNumeral (codes "0") }
    ensures plain { IsNumeral (codes "407") }
    ensures empty { ¬ (IsNumeral (codes "")) }
    ensures leading { ¬ (IsNumeral (codes "07")) }
    ensures letter { ¬ (IsNumeral (codes "4x")) }
{}

fn limits()
    ensures small { clamped (pos 5) ≡ pos 5 }
    ensures large { clamped (pos 1000000000000000005) ≡ pos 1000000000000000000 }
    ensures low { clamped (negsuc 4) ≡ negsuc 4 }
    ensures lowest { clamped (negsuc 1000000000000000005) ≡ negsuc 999999999999999999 }
{}
