/// The native methods of the built-in classes, by what they do. The number of one is its place in this list, from 0: the three
/// constructors of throwables have theirs once, whatever the class.
#[derive(Clone, Copy, Debug, PartialEq, Eq)]
pub enum Native {
    /// `Object()`.
    InitObject,
    /// `Object.equals(Object)`.
    ObjectEquals,
    /// `Object.wait()`.
    Wait,
    /// `Object.notify()`.
    Notify,
    /// `Object.notifyAll()`.
    NotifyAll,
    /// `String.length()`.
    StringLength,
    /// `String.charAt(int)`.
    CharAt,
    /// `String.substring(int, int)`.
    Substring,
    /// `String.equals(Object)`.
    StringEquals,
    /// `String.hashCode()`.
    HashCode,
    /// `String.toString()`.
    StringToString,
    /// `String.valueOf(int)`.
    ValueOfInt,
    /// `String.valueOf(long)`.
    ValueOfLong,
    /// `String.valueOf(char)`.
    ValueOfChar,
    /// `String.valueOf(boolean)`.
    ValueOfBoolean,
    /// `StringBuilder()`.
    InitBuilder,
    /// `StringBuilder.append(int)`.
    AppendInt,
    /// `StringBuilder.append(long)`.
    AppendLong,
    /// `StringBuilder.append(char)`.
    AppendChar,
    /// `StringBuilder.append(boolean)`.
    AppendBoolean,
    /// `StringBuilder.append(String)`.
    AppendText,
    /// `StringBuilder.length()`.
    BuilderLength,
    /// `StringBuilder.toString()`.
    BuilderToString,
    /// `System.exit(int)`.
    Exit,
    /// `PrintStream.print(int)`.
    PrintInt,
    /// `PrintStream.print(long)`.
    PrintLong,
    /// `PrintStream.print(char)`.
    PrintChar,
    /// `PrintStream.print(boolean)`.
    PrintBoolean,
    /// `PrintStream.print(String)`.
    PrintText,
    /// `PrintStream.println(int)`.
    PrintlnInt,
    /// `PrintStream.println(long)`.
    PrintlnLong,
    /// `PrintStream.println(char)`.
    PrintlnChar,
    /// `PrintStream.println(boolean)`.
    PrintlnBoolean,
    /// `PrintStream.println(String)`.
    PrintlnText,
    /// `PrintStream.println()`.
    Println,
    /// `Integer.parseInt(String)`.
    ParseInt,
    /// `Thread()`.
    InitThread,
    /// `Thread(Runnable)`.
    InitTarget,
    /// `Thread.start()`.
    StartThread,
    /// `Thread.join()`.
    Join,
    /// `Thread.currentThread()`.
    CurrentThread,
    /// `Sys.println(int)` of the package `mvm`.
    SysPrintln,
    /// `Isolate.number()`.
    IsolateNumber,
    /// `Isolate.start(int)`.
    StartIsolate,
    /// `Isolate.halt(int, int)`.
    HaltIsolate,
    /// `Link.send(int, int[])`.
    SendInts,
    /// `Link.send(int, long[])`.
    SendLongs,
    /// `Link.send(int, byte[])`.
    SendBytes,
    /// `Link.send(int, String)`.
    SendText,
    /// `Link.receive(int)`.
    Receive,
    /// `Link.close(int)`.
    CloseLink,
    /// `Throwable()`, and that of each class below it: no message and no cause.
    InitThrowable,
    /// `Throwable(String)`, and that of each class below it: this message and no cause.
    InitMessage,
    /// `Throwable(String, Throwable)`, and that of each class below it that has it: this message and this cause.
    InitCause,
    /// `Throwable.getMessage()`.
    GetMessage,
    /// `Throwable.getCause()`.
    GetCause,
}

/// The native methods, each at the place of its number.
pub static NATIVES: [Native; 56] = [
    Native::InitObject,
    Native::ObjectEquals,
    Native::Wait,
    Native::Notify,
    Native::NotifyAll,
    Native::StringLength,
    Native::CharAt,
    Native::Substring,
    Native::StringEquals,
    Native::HashCode,
    Native::StringToString,
    Native::ValueOfInt,
    Native::ValueOfLong,
    Native::ValueOfChar,
    Native::ValueOfBoolean,
    Native::InitBuilder,
    Native::AppendInt,
    Native::AppendLong,
    Native::AppendChar,
    Native::AppendBoolean,
    Native::AppendText,
    Native::BuilderLength,
    Native::BuilderToString,
    Native::Exit,
    Native::PrintInt,
    Native::PrintLong,
    Native::PrintChar,
    Native::PrintBoolean,
    Native::PrintText,
    Native::PrintlnInt,
    Native::PrintlnLong,
    Native::PrintlnChar,
    Native::PrintlnBoolean,
    Native::PrintlnText,
    Native::Println,
    Native::ParseInt,
    Native::InitThread,
    Native::InitTarget,
    Native::StartThread,
    Native::Join,
    Native::CurrentThread,
    Native::SysPrintln,
    Native::IsolateNumber,
    Native::StartIsolate,
    Native::HaltIsolate,
    Native::SendInts,
    Native::SendLongs,
    Native::SendBytes,
    Native::SendText,
    Native::Receive,
    Native::CloseLink,
    Native::InitThrowable,
    Native::InitMessage,
    Native::InitCause,
    Native::GetMessage,
    Native::GetCause,
];
