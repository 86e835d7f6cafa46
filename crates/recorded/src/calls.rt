// The recorded calls, one method a kind: its numbers and buffers are read, the call is made, and what it hands over is printed. The sum of a room that a
// call writes to is printed as it is before the call and after it.
ghost use Rattle.std.specs.Prelude.{◌≤◌};

use crate::inputs::{Camera, Plate, bytes, directions, shot, wholes, words};
use crate::kind::Kind;
use crate::player::Player;
use crate::print::{first, line, line_with_sums};
use c_interface::{by_index, camera, frame, identify, track};
use numbers::signed;
use playback::{Shot, bytes_checksum, checksum, signed_half, word};
use std::io;

impl<P: Print> Player<'_, P> {
    // A call on one pixel of a frame, and the first n numbers of its answer.
    fn pixel<F: Fn(&[u16], Shot, usize, usize, &mut [i64])>(
        &mut self,
        kind: Kind,
        n: usize,
        call: F,
    ) -> io::Result<()>
        requires callable { F.IsAlwaysCallable call }
        requires n_in_range { n ≤ 64 }
    {
        let shot = shot(&mut self.file);
        let row = word(&mut self.file) as usize;
        let column = word(&mut self.file) as usize;
        let samples = words(&mut self.file, self.bytes, self.samples);
        let mut out = [0i64; 64];
        call(samples, shot, row, column, &mut out);
        line(self.rt, kind, &out[..n])
    }

    pub fn verdict(&mut self) -> io::Result<()> {
        self.pixel(Kind::Verdict, 8, |samples, shot, row, column, out| {
            frame::mnemathor_verdict(
                samples,
                shot.width,
                shot.height,
                shot.threshold,
                row,
                column,
                out,
            )
        })
    }

    pub fn reason(&mut self) -> io::Result<()> {
        self.pixel(Kind::Reason, 6, |samples, shot, row, column, out| {
            frame::mnemathor_reason(
                samples,
                shot.width,
                shot.height,
                shot.threshold,
                row,
                column,
                out,
            )
        })
    }

    pub fn list(&mut self) -> io::Result<()> {
        let shot = shot(&mut self.file);
        let samples = words(&mut self.file, self.bytes, self.samples);
        let mut out = [0i64; 64];
        frame::mnemathor_list(samples, shot.width, shot.height, shot.threshold, &mut out);
        line(self.rt, Kind::List, first(&out, 30))
    }

    pub fn direction(&mut self) -> io::Result<()> {
        let Camera { cx, cy, plate } = Camera::read(&mut self.file);
        let x = signed(word(&mut self.file));
        let y = signed(word(&mut self.file));
        let mut out = [0i64; 64];
        camera::mnemathor_direction(
            cx,
            cy,
            plate.kind,
            plate.first,
            plate.second,
            x,
            y,
            &mut out,
        );
        line(self.rt, Kind::Direction, &out[..5])
    }

    pub fn lens(&mut self) -> io::Result<()> {
        let plate = Plate::read(&mut self.file);
        let mut out = [0i64; 64];
        camera::mnemathor_lens(plate.kind, plate.first, plate.second, &mut out);
        line(self.rt, Kind::Lens, &out[..3])
    }

    pub fn catalogue(&mut self) -> io::Result<()> {
        let stars = bytes(&mut self.file, self.stars);
        let mut out = [0i64; 64];
        identify::mnemathor_catalogue(stars, &mut out);
        line(self.rt, Kind::Catalogue, &out[..3])
    }

    pub fn ranking(&mut self) -> io::Result<()> {
        let tolerance = word(&mut self.file);
        let mut room = [0i32; 40];
        let directions = directions(&mut self.file, self.bytes, &mut room);
        let stars = bytes(&mut self.file, self.stars);
        let ranking = words(&mut self.file, self.bytes, self.ranking);
        let before = checksum(ranking);
        let mut out = [0i64; 64];
        identify::mnemathor_ranking(directions, stars, tolerance, ranking, &mut out);
        line_with_sums(
            self.rt,
            Kind::Ranking,
            &out[..2],
            &[before, checksum(ranking)],
        )
    }

    // A call that names directions, and its answer.
    fn names<F: Fn(&[i32], &[u8], usize, u64, &[u16], &mut [i64])>(
        &mut self,
        kind: Kind,
        call: F,
    ) -> io::Result<()>
        requires callable { F.IsAlwaysCallable call }
    {
        let needed = word(&mut self.file) as usize;
        let tolerance = word(&mut self.file);
        let mut room = [0i32; 40];
        let directions = directions(&mut self.file, self.bytes, &mut room);
        let stars = bytes(&mut self.file, self.stars);
        let ranking = words(&mut self.file, self.bytes, self.ranking);
        let mut out = [0i64; 64];
        call(directions, stars, needed, tolerance, ranking, &mut out);
        line(self.rt, kind, &out[..11])
    }

    pub fn search(&mut self) -> io::Result<()> {
        self.names(
            Kind::Search,
            |directions, stars, needed, tolerance, ranking, out| {
                identify::mnemathor_search(directions, stars, needed, tolerance, ranking, out)
            },
        )
    }

    pub fn rival(&mut self) -> io::Result<()> {
        self.names(
            Kind::Rival,
            |directions, stars, needed, tolerance, ranking, out| {
                c_interface::rival::mnemathor_rival(
                    directions, stars, needed, tolerance, ranking, out,
                )
            },
        )
    }

    pub fn attitude(&mut self) -> io::Result<()> {
        let mut room = [0i64; 12];
        let vectors = wholes(&mut self.file, self.bytes, &mut room);
        let mut out = [0i64; 64];
        identify::mnemathor_attitude(vectors, &mut out);
        line(self.rt, Kind::Attitude, &out[..11])
    }

    pub fn chain(&mut self) -> io::Result<()> {
        let shot = shot(&mut self.file);
        let Camera { cx, cy, plate } = Camera::read(&mut self.file);
        let needed = word(&mut self.file) as usize;
        let tolerance = word(&mut self.file);
        let samples = words(&mut self.file, self.bytes, self.samples);
        let stars = bytes(&mut self.file, self.stars);
        let ranking = words(&mut self.file, self.bytes, self.ranking);
        let before = checksum(ranking);
        let mut out = [0i64; 64];
        track::mnemathor_chain(
            samples,
            shot.width,
            shot.height,
            shot.threshold,
            cx,
            cy,
            plate.kind,
            plate.first,
            plate.second,
            stars,
            needed,
            tolerance,
            ranking,
            &mut out,
        );
        line_with_sums(
            self.rt,
            Kind::Chain,
            first(&out, 47),
            &[before, checksum(ranking)],
        )
    }

    pub fn index(&mut self) -> io::Result<()> {
        let floor = signed(word(&mut self.file));
        let stars = bytes(&mut self.file, self.stars);
        let index = bytes(&mut self.file, self.index);
        let before = bytes_checksum(index);
        let mut out = [0i64; 64];
        by_index::mnemathor_index(stars, floor, index, &mut out);
        line_with_sums(
            self.rt,
            Kind::Index,
            &out[..3],
            &[before, bytes_checksum(index)],
        )
    }

    pub fn compare(&mut self) -> io::Result<()> {
        let old = bytes(&mut self.file, self.stars);
        let new = bytes(&mut self.file, self.bytes);
        let list = bytes(&mut self.file, self.index);
        let before = bytes_checksum(list);
        let mut out = [0i64; 64];
        c_interface::compare::mnemathor_compare(old, new, list, &mut out);
        line_with_sums(
            self.rt,
            Kind::Compare,
            &out[..3],
            &[before, bytes_checksum(list)],
        )
    }

    pub fn cut(&mut self) -> io::Result<()> {
        let limit = signed_half(word(&mut self.file));
        let closeness = signed(word(&mut self.file));
        let stars = bytes(&mut self.file, self.stars);
        let before = bytes_checksum(stars);
        let mut out = [0i64; 64];
        c_interface::cut::mnemathor_cut(stars, limit, closeness, &mut out);
        line_with_sums(
            self.rt,
            Kind::Cut,
            &out[..3],
            &[before, bytes_checksum(stars)],
        )
    }

    pub fn ranking_by_index(&mut self) -> io::Result<()> {
        let floor = signed(word(&mut self.file));
        let tolerance = word(&mut self.file);
        let mut room = [0i32; 40];
        let directions = directions(&mut self.file, self.bytes, &mut room);
        let stars = bytes(&mut self.file, self.stars);
        let index = bytes(&mut self.file, self.index);
        let ranking = words(&mut self.file, self.bytes, self.ranking);
        let before = checksum(ranking);
        let mut out = [0i64; 64];
        by_index::mnemathor_ranking_by_index(
            directions, stars, index, floor, tolerance, ranking, &mut out,
        );
        line_with_sums(
            self.rt,
            Kind::RankingByIndex,
            &out[..2],
            &[before, checksum(ranking)],
        )
    }

    pub fn chain_by_index(&mut self) -> io::Result<()> {
        let shot = shot(&mut self.file);
        let Camera { cx, cy, plate } = Camera::read(&mut self.file);
        let floor = signed(word(&mut self.file));
        let needed = word(&mut self.file) as usize;
        let tolerance = word(&mut self.file);
        let samples = words(&mut self.file, self.bytes, self.samples);
        let stars = bytes(&mut self.file, self.stars);
        let index = bytes(&mut self.file, self.index);
        let ranking = words(&mut self.file, self.bytes, self.ranking);
        let before = checksum(ranking);
        let mut out = [0i64; 64];
        by_index::mnemathor_chain_by_index(
            samples,
            shot.width,
            shot.height,
            shot.threshold,
            cx,
            cy,
            plate.kind,
            plate.first,
            plate.second,
            stars,
            index,
            floor,
            needed,
            tolerance,
            ranking,
            &mut out,
        );
        line_with_sums(
            self.rt,
            Kind::ChainByIndex,
            first(&out, 47),
            &[before, checksum(ranking)],
        )
    }

    // The room for an index takes the burst's records.
    pub fn burst(&mut self) -> io::Result<()> {
        let shot = shot(&mut self.file);
        let Camera { cx, cy, plate } = Camera::read(&mut self.file);
        let needed = word(&mut self.file) as usize;
        let tolerance = word(&mut self.file);
        let samples = words(&mut self.file, self.bytes, self.samples);
        let stars = bytes(&mut self.file, self.stars);
        let ranking = words(&mut self.file, self.bytes, self.ranking);
        let records = bytes(&mut self.file, self.index);
        let ranking_before = checksum(ranking);
        let records_before = bytes_checksum(records);
        let mut out = [0i64; 64];
        c_interface::burst::mnemathor_burst(
            samples,
            shot.width,
            shot.height,
            shot.threshold,
            cx,
            cy,
            plate.kind,
            plate.first,
            plate.second,
            stars,
            needed,
            tolerance,
            ranking,
            records,
            &mut out,
        );
        let sums = [
            ranking_before,
            checksum(ranking),
            records_before,
            bytes_checksum(records),
        ];
        line_with_sums(self.rt, Kind::Burst, &out[..3], &sums)
    }
}
