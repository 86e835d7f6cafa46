// The recorded calls of the gimbal computer. Their floats stand in the file, and are printed, by their bits.
use crate::inputs::{floats, wholes};
use crate::kind::Kind;
use crate::player::Player;
use crate::print::line_with_floats;
use c_interface::gimbal;
use std::io;

impl<P: Print> Player<'_, P> {
    pub fn cosines(&mut self) -> io::Result<()> {
        let mut matrix = [0i64; 12];
        let matrix = wholes(&mut self.file, self.bytes, &mut matrix);
        let mut rows = [0.0f64; 12];
        let rows = floats(&mut self.file, self.bytes, &mut rows);
        let mut out = [0i64; 64];
        gimbal::mnemathor_cosines(matrix, rows, &mut out);
        line_with_floats(self.rt, Kind::Cosines, &out[..2], rows)
    }

    pub fn turned(&mut self) -> io::Result<()> {
        let mut rows = [0.0f64; 12];
        let rows = floats(&mut self.file, self.bytes, &mut rows);
        let mut target = [0.0f64; 4];
        let target = floats(&mut self.file, self.bytes, &mut target);
        let mut turned = [0.0f64; 4];
        let turned = floats(&mut self.file, self.bytes, &mut turned);
        let mut out = [0i64; 64];
        gimbal::mnemathor_turned(rows, target, turned, &mut out);
        line_with_floats(self.rt, Kind::Turned, &out[..2], turned)
    }
}
