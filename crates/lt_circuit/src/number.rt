//! The jobs of a line by their numbers over all segments: leaf i of segment s has the number 256 * s + i, node v the number 512 * s + v.
#![tactic(auto)]

ghost use Rattle.std.specs.Prelude.{◌≡◌, ◌+◌, ◌*◌, ◌/◌, ◌%◌, ◌<◌, ◌^◌};
ghost use Rattle.lt_net.specs.Line.{line_job};
ghost use Rattle.lt_circuit.specs.Line.{line_name, number_code};

use lt_net::{CODES, JobName, PASS};

/// The code of a job by its number.
pub(crate) fn number_code(name: JobName) -> u32
    requires { number_code name < 2 ^ 32 }
    ensures { result ≡ number_code name }
{
    match name {
        JobName::Leaf(leaf) => CODES * (leaf / 256) + 3 * (leaf % 256),
        JobName::Merge(node) => CODES * (node / 512) + (3 * (node % 512) + 1),
        JobName::Correct(node) => CODES * (node / 512) + (3 * (node % 512) + 2),
        JobName::Pass(segment) => CODES * segment + PASS,
    }
}

/// The job of this code, by its number.
pub(crate) fn name_at(code: u32) -> JobName
    requires { code < 2048 * 8 }
    ensures { result ≡ line_name (line_job code) }
{
    let segment = code / CODES;
    let place = code % CODES;
    if place == PASS {
        return JobName::Pass(segment);
    }
    match JobName::of(place) {
        JobName::Leaf(leaf) => JobName::Leaf(256 * segment + leaf),
        JobName::Merge(node) => JobName::Merge(512 * segment + node),
        JobName::Correct(node) => JobName::Correct(512 * segment + node),
        JobName::Pass(_of) => JobName::Pass(segment),
    }
}
