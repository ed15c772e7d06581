//! Texts and places, appended.

ghost use Rattle.std.specs.Prelude.{◌≡◌, ◌++◌, map, OnOk};
ghost use Rattle.std.specs.List.{concat};
ghost use Rattle.xd_report.specs.Report.{place_front};
ghost use Rattle.xd_report.specs.Kept.{IsKept};

use itoa::Buffer;
use xd_base::Place;
use xd_doc::NoMemory;

/// Appends these texts, one after the other. After `NoMemory` some of them may stand in `out`.
pub fn write_texts(texts: &[&str], out: &mut Vec<u8>) -> Result<(), NoMemory>
    ensures ok { OnOk result (out.new.items ≡ out.old.items ++ concat (map (λ text. text.now) texts.now)) }
    ensures kept { IsKept out.old.items out.new.items }
{
    for text in texts {
        out.extend_from_slice(text.as_bytes())?;
    }
    Ok(())
}

/// Appends the front of a line with this place, as `1:12: `. After `NoMemory` a part of it may
/// stand in `out`.
pub fn write_place_front(place: Place, out: &mut Vec<u8>) -> Result<(), NoMemory>
    ensures ok { OnOk result (out.new.items ≡ out.old.items ++ place_front place) }
    ensures kept { IsKept out.old.items out.new.items }
{
    let mut line = Buffer::new();
    let mut column = Buffer::new();
    write_texts(
        &[
            line.format(place.line),
            ":",
            column.format(place.column),
            ": ",
        ],
        out,
    )
}
