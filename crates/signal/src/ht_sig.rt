// The HT-SIG field: 48 bits in six bytes (document 01, 'Signal bits').
ghost use Rattle.std.specs.Prelude.{◌≡◌, length};
ghost use Rattle.settings.specs.Settings.{check_of};
ghost use Rattle.signal.specs.HtSig.{fields_of, written_of, written_into, read_of};

use settings::settings::{RawSettings, Refusal, Settings, check};
use sig_words::words::{SigFields, crc_wrong, fields_in, form_wrong, put_six, sig_word, word_in};

fn fields_of(s: Settings) -> SigFields
    ensures { result ≡ fields_of s }
{
    SigFields {
        width: s.width,
        mcs: s.mcs,
        length: s.length,
        smoothing: s.smoothing,
        not_sounding: s.not_sounding,
        aggregation: s.aggregation,
        short_guard: s.short_guard,
    }
}

// The public signal write: six bytes and the rest of the slice as it was, or a refusal and nothing written.
pub fn write(raw: RawSettings, out: &mut [u8]) -> Result<(), Refusal>
    ensures { (result ≡ written_of (check_of raw) (length out.old)) × (out.new ≡ written_into (check_of raw) out.old) }
{
    let checked = check(raw);
    let Ok(s) = checked else {
        return Err(checked.unwrap_err());
    };
    if out.len() < 6 {
        return Err(Refusal::Room);
    }
    put_six(sig_word(fields_of(s)), out);
    Ok(())
}

// The public signal read.
pub fn read(sig: &[u8]) -> Result<SigFields, Refusal>
    ensures { result ≡ read_of sig.now }
{
    if sig.len() != 6 {
        return Err(Refusal::Source);
    }
    let w = word_in(sig);
    let bad_crc = crc_wrong(w);
    let bad_form = form_wrong(w);
    if bad_crc {
        return Err(Refusal::SigCrc);
    }
    if bad_form {
        return Err(Refusal::SigForm);
    }
    Ok(fields_in(w))
}
