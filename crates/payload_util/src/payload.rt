// What every kind of payload has, and what is made of it for each.
ghost use Rattle.std.specs.Prelude.{◌≡◌, ℕ, List};
ghost use Rattle.payload_util.specs.Outcome.{outcome};
ghost use Rattle.payload_util.specs.Loss.{without};
ghost use Rattle.payload_util.specs.Writing.{put};
ghost use Rattle.payload_util.specs.Form.{Form, code, loss, check, normalise};
ghost use Rattle.payload_util.specs.Law.{Law};

use crate::Refusal;

// A kind of payload. Its row says what its code byte is, what its reader checks, and what reading loses.
pub trait Payload: Copy {
    const CODE: u8;

    ghost form: { Form };

    // Refuses as the kind's reader does.
    fn check(p: &[u8]) -> Result<(), Refusal>
        ensures { result ≡ check form p.now };

    // Writes what reading keeps of a payload, whether it passes the checks or not.
    fn put_kept(p: &[u8], out: &mut [u8]) -> Result<usize, Refusal>
        ensures { (result, out.new) ≡ put (code form) (without (loss form) p.now) out.old };

    // The kind keeps the law that the theorems over all kinds rest on. It does nothing.
    fn keeps_law()
        ensures { Law form };

    // Reads a payload and writes it again.
    final fn normalise(p: &[u8], out: &mut [u8]) -> Result<usize, Refusal>
        ensures { (result, out.new) ≡ normalise form p.now out.old }
    {
        Self::keeps_law();
        Self::check(p)?;
        Self::put_kept(p, out)
    }
}

// A record of fixed fields, which may have a tail too.
pub trait Record: Payload {
    ghost fields: { List ℕ → Self };

    // The fixed fields of a payload, whether it passes the checks or not; a byte past its end counts as 0.
    fn fields(p: &[u8]) -> Self
        ensures { result ≡ fields p.now };

    final fn decode(p: &[u8]) -> Result<Self, Refusal>
        ensures { result ≡ outcome (check Self.form p.now) (fields p.now) }
    {
        Self::check(p)?;
        Ok(Self::fields(p))
    }
}
