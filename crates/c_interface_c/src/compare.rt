// The C interface of comparing two catalogues.
ghost use Rattle.std.specs.Prelude.{◌≡◌, length};
ghost use Rattle.catalogue_compare.specs.Compare.{compared_of, room_after};
ghost use Rattle.c_numbers.specs.Room.{handed_over};
ghost use Rattle.c_numbers.specs.Numbers.{counted_numbers};

// What changed from the first catalogue to the second, written into the room: how many records the list has.
#[unsafe(no_mangle)]
pub extern "C" fn mnemathor_compare(first: &[u8], second: &[u8], room: &mut [u8], out: &mut [i64])
    ensures room_after { room.new ≡ room_after first.now second.now room.old }
    ensures out_after { out.new ≡ handed_over (counted_numbers (compared_of first.now second.now (length room.old)))
        out.old }
{
    c_interface::compare::mnemathor_compare(first, second, room, out);
}
