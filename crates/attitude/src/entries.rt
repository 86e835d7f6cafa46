// The matrix of two sides: an entry for each component of the camera and each of the sky.
ghost use Rattle.std.specs.Prelude.{◌≡◌};
ghost use Rattle.attitude.specs.Entries.{AxesWithin, entry_by, product_of};
ghost use Rattle.attitude.specs.Components.{ComponentWithin, ComponentsWithin, row_with};

use super::Matrix;
use super::side::{Axes, ONE};
use vectors::Vec3;

// The entry of a component of the camera and one of the sky.
fn entry(camera: Vec3, sky: Vec3) -> i64
    requires camera_within { ComponentWithin camera }
    requires sky_within { ComponentWithin sky }
    ensures { result ≡ entry_by camera.x camera.y camera.z sky.x sky.y sky.z }
{
    (camera.x * sky.x + camera.y * sky.y + camera.z * sky.z) / ONE
}

// The row of a component of the camera.
fn row(camera: Vec3, sky: Matrix) -> Vec3
    requires camera_within { ComponentWithin camera }
    requires sky_within { ComponentsWithin sky }
    ensures { result ≡ row_with camera sky }
{
    Vec3 {
        x: entry(camera, sky.row0),
        y: entry(camera, sky.row1),
        z: entry(camera, sky.row2),
    }
}

// The matrix that carries the sky's axes to the camera's.
pub(crate) fn product(camera: Axes, sky: Axes) -> Matrix
    requires camera_within { AxesWithin camera }
    requires sky_within { AxesWithin sky }
    ensures { result ≡ product_of camera sky }
{
    let camera = camera.components();
    let sky = sky.components();
    Matrix {
        row0: row(camera.row0, sky),
        row1: row(camera.row1, sky),
        row2: row(camera.row2, sky),
    }
}
