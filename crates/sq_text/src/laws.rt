//! Laws of inputs. The function does nothing: it states a law, which the checker proves.
ghost use Rattle.std.specs.Prelude.{◌≡◌};
ghost use Rattle.sq_text.specs.declared.reader.TheConstants.{MAX_LINES};
ghost use Rattle.sq_text.specs.declared.buffer.TheConstants.{MAX_UNENDED};
ghost use Rattle.sq_text.specs.declared.step.TheConstants.{MAX_LINE};

/// States the limits of inputs as numbers.
pub fn the_limits()
    ensures { (MAX_LINES ≡ 1000000) × (MAX_UNENDED ≡ 1048576) × (MAX_LINE ≡ 65536) }
{}
