// The C interface of cutting a catalogue.
ghost use Rattle.std.specs.Prelude.{◌≡◌};
ghost use Rattle.catalogue_cut.specs.Cut.{shortened_of, buffer_after};
ghost use Rattle.c_numbers.specs.Room.{handed_over};
ghost use Rattle.c_numbers.specs.Numbers.{counted_numbers};

// A catalogue cut in its own buffer to the stars within the limit that no other one within it is close to: how many are kept.
#[unsafe(no_mangle)]
pub extern "C" fn mnemathor_cut(bytes: &mut [u8], limit: i32, closeness: i64, out: &mut [i64])
    ensures bytes_after { bytes.new ≡ buffer_after bytes.old limit closeness }
    ensures out_after { out.new ≡ handed_over (counted_numbers (shortened_of bytes.old limit closeness)) out.old }
{
    c_interface::cut::mnemathor_cut(bytes, limit, closeness, out);
}
