// Whole texts put into a sink.
ghost use Rattle.std.specs.Prelude.{OnOk, OnErr};
ghost use Rattle.std.specs.Io.KnownBytes.{Appends};
ghost use Rattle.fx_edge.specs.Outside.{HasCause};
ghost use Rattle.whole_texts.specs.Pieces.{AppendsFront};

use fx_edge::{Failed, Sink};

/// Puts all of the text. `Failed` where a put failed; the sink then took a front of it.
pub fn put_all<O: Sink>(out: &mut O, text: &[u8]) -> Result<(), Failed>
    ensures ok { OnOk result (Appends (O.taken out.old) (O.taken out.new) text.now) }
    ensures err { OnErr result (AppendsFront (O.taken out.old) (O.taken out.new) text.now) }
    ensures cause { HasCause (O.faults out.old) (O.faults out.new) result }
{
    let mut done = 0;
    while done < text.len() {
        done += out.put(&text[done..])?;
    }
    Ok(())
}
