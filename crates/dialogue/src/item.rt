//! The items of a course.

/// What was met on a course: an ask with its answer, or that memory was short where the course takes some. Contracts speak
/// of it, and no value of it need be made.
pub enum CourseItem<Ask, Answer> {
    Told(Ask, Answer),
    Short,
}
