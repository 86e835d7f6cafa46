// The C interface of the frame's calls: the verdict on a pixel, the reason for it, and the frame's list.
ghost use Rattle.std.specs.Prelude.{◌≡◌};
ghost use Rattle.frame_list.specs.Calls.{judgement_of, listing_of};
ghost use Rattle.frame_reason.specs.Reason.{explanation_of};
ghost use Rattle.c_numbers.specs.Room.{handed_over};
ghost use Rattle.c_interface.specs.frame.Frame.{verdict_numbers, listing_numbers};
ghost use Rattle.c_interface.specs.frame.Reason.{explanation_numbers};

// The verdict on one pixel.
#[unsafe(no_mangle)]
pub extern "C" fn mnemathor_verdict(
    samples: &[u16],
    width: usize,
    height: usize,
    threshold: usize,
    row: usize,
    column: usize,
    out: &mut [i64],
)
    ensures { out.new ≡ handed_over (verdict_numbers (judgement_of samples.now width height threshold row column)) out.old }
{
    c_interface::frame::mnemathor_verdict(samples, width, height, threshold, row, column, out);
}

// Why one pixel is not a star.
#[unsafe(no_mangle)]
pub extern "C" fn mnemathor_reason(
    samples: &[u16],
    width: usize,
    height: usize,
    threshold: usize,
    row: usize,
    column: usize,
    out: &mut [i64],
)
    ensures { out.new ≡ handed_over (explanation_numbers (explanation_of samples.now width height threshold row column))
        out.old }
{
    c_interface::frame::mnemathor_reason(samples, width, height, threshold, row, column, out);
}

// The frame's list and counts.
#[unsafe(no_mangle)]
pub extern "C" fn mnemathor_list(
    samples: &[u16],
    width: usize,
    height: usize,
    threshold: usize,
    out: &mut [i64],
)
    ensures { out.new ≡ handed_over (listing_numbers (listing_of samples.now width height threshold)) out.old }
{
    c_interface::frame::mnemathor_list(samples, width, height, threshold, out);
}
