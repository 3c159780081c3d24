// The words over a picture: the file, the train, and a legend with a sample of each line and shade.
use crate::axes::{Frame, Place, text};
use crate::figures::Figure;
use crate::names::Name;
use link::train_params::{TrainParams, TrainType};
use show::Sink;

// A train type in words.
fn type_words(t: TrainType) -> &'static str {
    match t {
        TrainType::None => "train of no type",
        TrainType::Freight => "freight train",
        TrainType::Passenger => "passenger train",
        TrainType::Intermodal => "intermodal train",
        TrainType::HighSpeedPassenger => "high-speed passenger train",
        TrainType::TiltTrain => "tilt train",
        TrainType::Commuter => "commuter train",
    }
}

// The file and the train.
pub fn title(out: Sink, name: &[u8], train: TrainParams) {
    let kind = type_words(train.train_type);
    let length = Figure(train.length.0);
    let top = Figure(train.speed_max.0);
    let hourly = Figure(train.speed_max.0 * 3.6);
    text(out, "title", Place { x: 60.0, y: 22.0 }, Name(name));
    text(
        out,
        "start",
        Place { x: 60.0, y: 40.0 },
        format_args!("{kind}, {length:.3} m long, top speed {top:.3} m/s ({hourly:.1} km/h)"),
    );
}

// What a sample shows.
#[derive(Clone, Copy)]
enum Shape {
    Line,
    Shade,
}

// A sample of a line or a shade, and what it is.
fn sample(out: Sink, shape: Shape, class: &str, x: f64, words: &str) {
    let (left, right) = (Figure(x), Figure(x + 24.0));
    match shape {
        Shape::Line => write!(out, "<path class=\"{class}\" d=\"M{left} 57H{right}\"/>\n"),
        Shape::Shade => write!(
            out,
            "<path class=\"{class}\" d=\"M{left} 51H{right}V63H{left}Z\"/>\n",
        ),
    }
    text(
        out,
        "start",
        Place {
            x: x + 30.0,
            y: 61.0,
        },
        words,
    );
}

// The legend: dropped links and heights only where the picture has them.
pub fn legend(out: Sink, f: Frame) {
    sample(out, Shape::Line, "posted", 60.0, "posted speed");
    sample(out, Shape::Shade, "board", 200.0, "above a limit");
    sample(out, Shape::Shade, "tail", 340.0, "in its tail");
    sample(out, Shape::Line, "border", 460.0, "link border");
    let mut x = 590.0;
    if f.heights.is_some() {
        sample(out, Shape::Line, "height", x, "height");
        x = 690.0;
    }
    if 0.0 < f.begin {
        sample(out, Shape::Shade, "dropped", x, "dropped links");
    }
}
