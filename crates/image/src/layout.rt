// A record to its image, and any image to its record: bytes at fixed places, as include/yurodekapi.h names them. They are functions and no
// `From`, since neither `Sign` nor the array is of this crate.
ghost use Rattle.std.specs.Prelude.{◌≡◌};
ghost use Rattle.image.specs.Layout.{image_of, record_of};

use collect::{POSITIONS, Slots};
use completed::Completed;
use machine::{Loop, Run};
use perform::Settings;
use sign::Sign;

// The bytes of an image.
pub const SIZE: usize = 106;

// A record as bytes at fixed places.
pub type Image = [u8; SIZE];

// The record that an image is.
pub fn record_of(image: Image) -> Sign
    ensures { result ≡ record_of image }
{
    let mut ids = [0; 4];
    let mut lens = [0; POSITIONS];
    let mut room = [0; room::SIZE];
    ids.copy_from_slice(&image[1..5]);
    lens.copy_from_slice(&image[7..13]);
    room.copy_from_slice(&image[13..97]);
    let len = image[97] as usize;
    let place = image[98] as usize;
    let behind = image[99] as usize;
    let completed = Completed {
        count: image[0],
        ids,
    };
    let slots = Slots {
        id: image[5],
        total: image[6],
        lens,
    };
    let inner = Loop {
        place: behind,
        left: image[100],
    };
    let settings = Settings {
        pace: image[101],
        scans: image[102],
        sink: image[103],
        dim: image[104],
        bright: image[105],
    };
    let run = Run {
        len,
        place,
        inner,
        settings,
    };
    Sign {
        completed,
        slots,
        room,
        run,
    }
}

// The image of a record.
pub fn image_of(sign: Sign) -> Image
    ensures { result ≡ image_of sign }
{
    // Copies of the record's parts: taken apart where they stand, as the fields of `collect`, `completed` and `hear`, they cost a receive twenty
    // instructions.
    let completed = sign.completed;
    let ids = completed.ids;
    let slots = sign.slots;
    let lens = slots.lens;
    let room = sign.room;
    let run = sign.run;
    let settings = run.settings;
    let mut image = [0; SIZE];
    image[0] = completed.count;
    image[5] = slots.id;
    image[6] = slots.total;
    image[97] = (run.len % 256) as u8;
    image[98] = (run.place % 256) as u8;
    image[99] = (run.inner.place % 256) as u8;
    image[100] = run.inner.left;
    image[101] = settings.pace;
    image[102] = settings.scans;
    image[103] = settings.sink;
    image[104] = settings.dim;
    image[105] = settings.bright;
    image[13..97].copy_from_slice(&room);
    image[7..13].copy_from_slice(&lens);
    image[1..5].copy_from_slice(&ids);
    image
}
