// The canonical line of the order of a number.
ghost use Rattle.std.specs.Prelude.{◌≡◌, ◌++◌, IfOk, OnOk, [], ◌∷◌};
ghost use Rattle.order_text.specs.Line.{district_text, items_text, order_body, position_text};
ghost use Rattle.demo_summary.specs.Demo.{demo_asked};

use crate::demo::{demo_asr, demo_from, demo_method, demo_offset, demo_ring};
use no_memory::NoMemory;
use order_text::pieces::{append, push_comma, push_position, push_span, push_words};
use std::alloc::Global;
use year_table::Zone;

fn push_positions(alloc: Global, line: &mut Vec<u8>, ring: &[(i64, i64)]) -> Result<(), NoMemory>
    ensures { OnOk result (line.new.items ≡ line.old.items ++ items_text position_text ring.now) }
{
    for (i, position) in ring.iter().enumerate() {
        push_comma(line, i)?;
        push_position(alloc, line, *position)?;
    }
    Ok(())
}

/// A district of one ring.
fn push_district(alloc: Global, line: &mut Vec<u8>, ring: &[(i64, i64)]) -> Result<(), NoMemory>
    ensures { OnOk result (line.new.items ≡ line.old.items ++ district_text ((ring.now ∷ []) ∷ [])) }
{
    append(line, "[[[")?;
    push_positions(alloc, line, ring)?;
    append(line, "]]]")?;
    Ok(())
}

/// The canonical line of the order of a number, without its LF.
#[tactic(auto, unfolding(order_text::specs::Line::order_body, crate::specs::Demo::demo_asked))]
pub(crate) fn demo_line(alloc: Global, number: u32) -> Result<Vec<u8>, NoMemory>
    ensures { IfOk result (λ line. line.items ≡ order_body (demo_asked number)) }
{
    let ring = demo_ring(alloc, number)?;
    let mut line = Vec::new(alloc);
    let zone = Zone::Fixed {
        minutes: demo_offset(number),
    };
    push_span(alloc, &mut line, 1, demo_from(number), 30)?;
    push_words(
        alloc,
        &mut line,
        demo_method(number),
        demo_asr(number),
        &zone,
    )?;
    append(&mut line, ",\"district\":")?;
    push_district(alloc, &mut line, &ring)?;
    append(&mut line, "}")?;
    Ok(line)
}
