// A batch of the words that are loaded.
use super::loads::Loads;
use batch_records::{PkBatch, PkDetection};
use settings::frame::FrameName;
use wire::floats::number_of;
use wire::signs::signed;
use wire::{Line, low_half};

fn covariance_of(w: &[u64; 20]) -> [f64; 9] {
    let mut covariance = [0.0; 9];
    for (place, word) in covariance.iter_mut().zip(&w[3..12]) {
        *place = number_of(*word);
    }
    covariance
}

fn detection_of(w: &[u64; 20]) -> PkDetection {
    let position = [number_of(w[0]), number_of(w[1]), number_of(w[2])];
    let covariance = covariance_of(w);
    let velocity = [number_of(w[12]), number_of(w[13])];
    PkDetection {
        position,
        covariance,
        velocity,
        score: number_of(w[14]),
        has_velocity: low_half(w[15]),
        has_score: low_half(w[16]),
        has_class: low_half(w[17]),
        class_label: low_half(w[18]),
    }
}

fn detections_of(seen: &[u64; 1280]) -> [PkDetection; 64] {
    let mut detections = [detection_of(&[0; 20]); 64];
    let (each, _) = seen.as_slice().as_chunks::<20>();
    for (detection, words) in detections.iter_mut().zip(each) {
        *detection = detection_of(words);
    }
    detections
}

// The batch of a line b.
pub fn batch_of(l: &Loads, line: Line) -> PkBatch {
    let [sensor, sequence, time, sizes] = line.numbers;
    let frame = FrameName {
        bytes: wire::names::bytes_of(l.frame),
        length: (sizes / 4294967296) as usize,
    };
    let detections = detections_of(l.seen.all());
    PkBatch {
        sequence,
        timestamp: signed(time),
        frame,
        sensor_id: low_half(sensor),
        reserved: 0,
        count: (sizes % 4294967296) as usize,
        detections,
    }
}
