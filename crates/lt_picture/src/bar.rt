//! A claim in its lane.
use crate::batch::{Bar, Look};
use crate::elements::{Area, put_area, put_number, put_words};
use crate::layout::{BAR, MOST_DRAWN, STEP, lane_top, left_of, right_of, room_for};
use lt_circuit::JobName;
use std::alloc::AllocError;

// How far a bar stands below the top of its lane, and its number's line below that.
const ABOVE_BAR: u64 = 3;

const TO_NUMBER: u64 = 17;

/// The class of a bar.
fn class_of(look: Look) -> &'static str {
    match look {
        Look::Run => "run",
        Look::Again => "again",
        Look::Merge => "merge",
        Look::Correct => "correct",
        Look::GivenBack => "back",
    }
}

/// What is told of a claim behind its job.
fn outcome_of(look: Look) -> &'static str {
    match look {
        Look::Again => ", again",
        Look::GivenBack => ", given back",
        _ => "",
    }
}

/// Writes what a job is, with the name of its program, where that is known. Programs count from 1.
fn put_job(text: &mut String, job: JobName, name: Option<&str>) -> Result<(), AllocError> {
    match job {
        JobName::Leaf(leaf) => write!(text, "program {}", u64::from(leaf) + 1)?,
        JobName::Merge(node) => write!(text, "merge at node {node}")?,
        JobName::Correct(node) => write!(text, "correction at node {node}")?,
        JobName::Pass(segment) => write!(text, "correction behind segment {segment}")?,
    }
    if let Some(name) = name {
        write!(text, " ({name})")?;
    }
    Ok(())
}

/// Writes what a bar tells where a reader points at it.
fn put_note(text: &mut String, bar: &Bar, name: Option<&str>) -> Result<(), AllocError> {
    let Bar {
        worker,
        from,
        to,
        ..
    } = *bar;
    let outcome = outcome_of(bar.look);
    write!(text, "<title>worker {worker}: ")?;
    put_job(text, bar.job, name)?;
    write!(text, "{outcome}, entries {from} to {to}</title>")
}

/// Writes a program's name in the middle of its bar, or its number, where there is no room for the name.
fn put_label(text: &mut String, bar: &Bar, name: Option<&str>) -> Result<(), AllocError> {
    let JobName::Leaf(leaf) = bar.job else {
        return Ok(());
    };
    let left = left_of(bar.from);
    let right = right_of(bar.to);
    if right < left + 2 * STEP {
        return Ok(());
    }
    let class = if bar.look == Look::Again {
        "light"
    } else {
        "dark"
    };
    let line = lane_top(bar.worker) + TO_NUMBER;
    let middle = (left + right) / 2;
    match name {
        Some(name) if room_for(name.len()) <= right - left => put_words(
            text, class, middle, line, name,
        ),
        _ => put_number(text, class, middle, line, u64::from(leaf) + 1),
    }
}

/// Writes a claim, unless it begins behind the entries that are drawn.
pub fn put_bar(text: &mut String, bar: &Bar, name: Option<&str>) -> Result<(), AllocError> {
    if bar.from > MOST_DRAWN {
        return Ok(());
    }
    let left = left_of(bar.from);
    let area = Area {
        left,
        top: lane_top(bar.worker) + ABOVE_BAR,
        width: right_of(bar.to).saturating_sub(left),
        height: BAR,
    };
    text.push_str("<g>")?;
    put_note(text, bar, name)?;
    put_area(text, class_of(bar.look), area)?;
    put_label(text, bar, name)?;
    text.push_str("</g>\n")
}
