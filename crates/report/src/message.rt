// The report of a message: its selector, its layout, its group, its response.
ghost use Rattle.std.specs.Prelude.{◌≡◌, ◌≤◌, [], length, take};
ghost use Rattle.frame.specs.Frame.{most_bytes, handed};
ghost use Rattle.frame.specs.Response.{kind_number};
ghost use Rattle.catalogue.specs.Lookup.{catalogue, length_for, layout_key};
ghost use Rattle.report.specs.Report.{key_byte, key_target, response_line, lines_of};
ghost use Rattle.report.specs.Answer.{under};

use crate::group::add_group;
use crate::line::{Line, Reason};
use crate::lines::Lines;
use crate::window::Window;
use catalogue::accept::Supplement;
use catalogue::kind::Kind;
use catalogue::layout::Layout;
use frame::bytes::byte_at;
use frame::frame::Parts;
use frame::header::{THREE_BYTE_FORM, header_size};
use frame::response::ResponseKind;

// The first byte of the layout sought: no layout of three header bytes has a priority.
#[tactic(auto, using(crate::proofs::message::Laws::key_byte_three, crate::proofs::message::Laws::key_byte_one))]
fn key_byte(header: &[u8]) -> u8
    ensures { result ≡ key_byte header.now }
{
    let b = byte_at(header, 0);
    if header_size(header) == THREE_BYTE_FORM {
        b & 0x1F
    } else {
        b
    }
}

// Its target, which a header of one byte lacks.
#[tactic(auto, using(crate::proofs::message::Laws::key_target_three, crate::proofs::message::Laws::key_target_one))]
fn key_target(header: &[u8]) -> u8
    ensures { result ≡ key_target header.now }
{
    if header_size(header) == THREE_BYTE_FORM {
        byte_at(header, 1)
    } else {
        0
    }
}

// The selector: as many data bytes as the supplement says for the header, or all that there are.
fn selector_of<'a>(supplement: &Supplement, first: u8, target: u8, body: &'a [u8]) -> &'a [u8]
    ensures { result.now ≡ take (length_for (catalogue supplement.now.bytes.now) first target) body.now }
{
    let length = supplement.selector_length(first, target) as usize;
    &body[..length.min(body.len())]
}

// The layout of a header and a selector; bytes that the selector lacks are zero.
fn sought(supplement: &Supplement, first: u8, target: u8, selector: &[u8]) -> Option<Layout>
    requires { length selector.now ≤ most_bytes }
    ensures { result ≡ (catalogue supplement.now.bytes.now).layout (layout_key first target selector.now) }
{
    let key = [
        Kind::Layout as u8,
        first,
        target,
        selector.len() as u8,
        byte_at(selector, 0),
        byte_at(selector, 1),
    ];
    supplement.layout(&key)
}

#[tactic(auto, unfolding(crate::specs::Report::response_line))]
fn response_line(kind: ResponseKind) -> Line
    ensures { result ≡ response_line (kind_number kind) }
{
    if kind == ResponseKind::Data {
        Line::Unknown(Reason::DataResponse)
    } else {
        Line::Answered(kind.number())
    }
}

// The lines of a frame's parts under a supplement.
pub(crate) fn add_message(lines: &mut Lines, supplement: &Supplement, parts: Parts)
    requires { lines.old ≡ [] }
    ensures { lines.new ≡ lines_of (under supplement.now.bytes.now (handed parts.entry)) }
{
    let header = parts.header;
    let body = parts.body;
    let first = key_byte(header);
    let target = key_target(header);
    let selector = selector_of(supplement, first, target, body);
    let layout = sought(supplement, first, target, selector);
    let window = Window {
        bytes: body,
        from: 8 * selector.len() as u8,
        to: 8 * body.len() as u8,
    };
    add_group(lines, supplement, window, layout);
    lines.push(response_line(parts.kind));
}
