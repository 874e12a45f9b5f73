// Bits where a test holds, and else none. A product with the test is no plainer.
ghost use Rattle.std.specs.Prelude.{◌≡◌};
ghost use Rattle.engine.specs.Sides.{one_if};

pub(crate) fn only_if(on: bool, x: u8) -> u8
    ensures { result ≡ one_if on x }
{
    if on { x } else { 0 }
}
