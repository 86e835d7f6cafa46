// The recorded calls of the guider.
use crate::inputs::wholes;
use crate::kind::Kind;
use crate::player::Player;
use crate::print::line_with_guider;
use c_interface::guide;
use numbers::signed;
use playback::word;
use std::io;

impl<P: Print> Player<'_, P> {
    pub fn guider_start(&mut self) -> io::Result<()> {
        let half = signed(word(&mut self.file));
        let mut stars = [0i64; 24];
        let stars = wholes(&mut self.file, self.bytes, &mut stars);
        let mut guider = [0i64; 24];
        let guider = wholes(&mut self.file, self.bytes, &mut guider);
        let mut out = [0i64; 64];
        guide::mnemathor_guider_start(half, stars, guider, &mut out);
        line_with_guider(self.rt, Kind::GuiderStart, &out[..2], guider)
    }

    pub fn guider_frame(&mut self) -> io::Result<()> {
        let mut guider = [0i64; 24];
        let guider = wholes(&mut self.file, self.bytes, &mut guider);
        let mut list = [0i64; 64];
        let list = wholes(&mut self.file, self.bytes, &mut list);
        let mut out = [0i64; 64];
        guide::mnemathor_guider_frame(guider, list, &mut out);
        line_with_guider(self.rt, Kind::GuiderFrame, &out[..2], guider)
    }
}
