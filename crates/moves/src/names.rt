// The two strings behind a Topic's CREATE, as parts of the datagram.
ghost use Rattle.std.specs.Prelude.{◌≡◌, ◌+◌, ◌≤◌};
ghost use Rattle.moves.specs.Names.{placed_in, names_in};

use codec::layouts::Span;
use codec::reading::part;
use codec::strings::decode_string;

// A part of the body as a part of the datagram.
fn placed_in(body: Span, x: Span) -> Span
    requires { body.start + x.start ≤ 9223372036854775808 }
    ensures { result ≡ placed_in body x }
{
    Span {
        start: body.start + x.start,
        len: x.len,
    }
}

// "Topic: name and type are two strings"; what stands behind them is ignored.
#[tactic(auto, unfolding(crate::specs::Names::names_in))]
pub(crate) fn names_in(d: &[u8], body: Span) -> Option<(Span, Span)>
    ensures { result ≡ names_in d.now body }
{
    let text = part(d, body);
    let name = decode_string(text, 0).ok()?;
    let type_name = decode_string(text, name.start + name.len).ok()?;
    Some((placed_in(body, name), placed_in(body, type_name)))
}
